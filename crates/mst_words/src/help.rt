//! What each command says of itself.
use crate::verb::Verb;

const PUT_HELP: &str = "\
usage: mst put FILE KEY VALUE [--if-absent | --if-value OLD]

Writes VALUE under KEY. The VALUE - is read from standard input, any bytes, to its end; after -- it is the text -.

  --if-absent     only if the key isn't there
  --if-value OLD  only if the key has the text OLD
                  Otherwise nothing is written, and the status is 1. Only this copy is asked: another one may have a later write
";

const LIST_HELP: &str = "\
usage: mst list FILE [--from KEY] [--to KEY] [--prefix TEXT] [--limit N] [--json]

Prints a line for each key, sorted by the bytes of the keys: KEY, tab, VALUE. A tab, a newline, a carriage return and a backslash are
printed as \\t, \\n, \\r and \\\\, and a value that isn't UTF-8 as \\base64: and its base64. With --json each line is an object with
the names key and value, or value_base64 for a value that isn't UTF-8.

  --from KEY     from this key on
  --to KEY       up to this key, and including it
  --prefix TEXT  only keys that begin with TEXT
  --limit N      at most N keys
";

const IMPORT_HELP: &str = "\
usage: mst import FILE [--log [--allow-ahead]]

Writes the records of the CSV on standard input, all or none. Its first line is key,value. The last record of a key counts. Keys are
UTF-8, values any bytes.
With --log it takes the entries of an export with --log, each at its own time and by its own writer.

  --allow-ahead  with --log: also takes entries more than a day ahead of this clock
";

const EXPORT_HELP: &str = "\
usage: mst export FILE [--log]

Prints the keys and values as CSV, with the first line key,value. With --log it prints each entry of the log, removals too, with the
first line key,time,writer,change,value; the change is put or del. If rows are damaged, it prints the others, names the damaged ones
on standard error, and ends with status 4. It can't read past a damaged page, and prints nothing then: restore a backup, or clone
another copy.
";

const COMPACT_HELP: &str = "\
usage: mst compact FILE [--forget-removals-older-than TIME]

Leaves one row in the file for each key. It changes no key and no value.

  --forget-removals-older-than TIME  drops removals older than TIME, such as 30d, 12h, 15m or 90s: a copy that hasn't
                                     seen a dropped removal brings the key back at the next sync
";

const PULL_HELP: &str = "\
usage: mst pull FILE [--both] [--allow-ahead] [--max-entries N] [--max-bytes N]

Fetches what a peer that runs mst serve has later, over standard input and standard output, all or nothing. While it waits for
the peer, other commands can have the file.

  --both           then answers the peer, which runs mst serve --both and fetches what this copy has
  --allow-ahead    also takes entries more than a day ahead of this clock: a later write of their keys gets a time
                   after theirs
  --max-entries N  fails if the peer sends more than N entries, and writes nothing; by default any number is taken
  --max-bytes N    fails if the peer sends more than N bytes, 64 GiB by default
";

const DIFF_HELP: &str = "\
usage: mst diff FILE [--json] [--allow-ahead] [--max-entries N] [--max-bytes N]

Prints on standard error the keys that a pull would bring, one a line, as list prints keys. It speaks with the peer over standard input
and standard output, and brings nothing. mst-sync --diff prints the keys on standard output.

  --json           each line is an object with the names key, time, writer and value or value_base64; value is null for
                   a removal
  --allow-ahead    also takes entries more than a day ahead of this clock; without it they make mst diff fail
  --max-entries N  fails if the peer sends more than N entries; by default any number is taken
  --max-bytes N    fails if the peer sends more than N bytes, 64 GiB by default
";

const INIT_HELP: &str = "\
usage: mst init FILE [WRITER] [--hash-key KEY]

Makes a store. WRITER is the name by which this copy writes; by default it is a random one, and if WRITER is empty the copy draws
one at its first write.

  --hash-key KEY  hashes under this key, as mst hash-key prints it, not under a random one: only copies with the same key
                  pull from each other. mst-clone passes it on
";

const GET_HELP: &str = "\
usage: mst get FILE KEY

Prints the value of the key as it is, and a newline. It ends with status 1 if the key isn't there.
";

const DEL_HELP: &str = "\
usage: mst del FILE KEY

Removes the key. It ends with status 1 if the key isn't there.
";

const BACKUP_HELP: &str = "\
usage: mst backup FILE TO

Makes the store TO, with every row of FILE and its hash key. TO is there whole or not at all. It has no writer's name: each copy
of it draws a random one at its first write. To restore it, copy TO to FILE and remove FILE-wal, while no command has FILE.
";

const CHECK_HELP: &str = "\
usage: mst check FILE [--json]

Reads every page of the file and every row, and makes the tree. It prints what mst status prints if all is well. If not, the status is
4, and standard error says what is wrong, and names each damaged row by its key: restore a backup, or save the other rows by
mst export FILE --log.
";

const REBUILD_HELP: &str = "\
usage: mst rebuild FILE

Writes the file anew: its rows, its writer's name and its hash key as they are, and the tree made from the rows. It brings a file
of format 3 into format 4, and mends one whose tree doesn't fit the rows. The new file has another name until it is whole, and then
takes the place of FILE: stopped in between, FILE is as it was.
";

const HISTORY_HELP: &str = "\
usage: mst history FILE KEY [--json]

Prints a line for each row of the key, the oldest first: TIME, tab, WRITER, tab, put, tab, VALUE; or TIME, tab, WRITER, tab, del.
TIME is in milliseconds since 1970. Values are printed as list prints them. compact leaves the last row alone.

  --json  each line is an object with the names time, writer and value or value_base64; value is null for a removal
";

const STATUS_HELP: &str = "\
usage: mst status FILE [--json]

Prints how many keys, removed keys and rows the file has, the time of the last write, the name by which this copy writes,
the root hash and the file's size.

  --json  one object with the names keys, removed, rows, last_write, writer, root and bytes
";

const ROOT_HELP: &str = "\
usage: mst root FILE

Prints the root hash. Two copies have the same one if their keys have the same last rows, with the same times and writers.
";

const HASH_KEY_HELP: &str = "\
usage: mst hash-key FILE

Prints the hash key, as 32 hexadecimal digits. All copies of a store have the same.
";

const SHELL_HELP: &str = "\
usage: mst shell FILE [--answers]

Reads commands from standard input, one a line, without mst and FILE. A word in double quotes may have blanks; in it \\\\, \\t, \\n, \\r
and \\\" stand for these characters.
What is put and removed between the lines begin and commit is written by commit, all or nothing; the line abort drops it.

  --answers  after what a line prints, a line on standard output says how it ended: ok, or failed: and why
";

const SERVE_HELP: &str = "\
usage: mst serve FILE [--both [--allow-ahead] [--max-entries N]] [--max-bytes N]

Answers a peer that pulls, on standard input and standard output, by the rows that the file had when it began. While it waits for
the peer, other commands can have the file.

  --both           then fetches what the peer has later, if that runs mst pull --both
  --allow-ahead    with --both: also takes entries more than a day ahead of this clock
  --max-entries N  with --both: fetches nothing if the peer sends more than N entries
  --max-bytes N    fails if the peer sends more than N bytes, 64 GiB by default
";

/// The help of a command.
pub fn text_of(verb: Verb) -> &'static str {
    match verb {
        Verb::Init => INIT_HELP,
        Verb::Put => PUT_HELP,
        Verb::Get => GET_HELP,
        Verb::Del => DEL_HELP,
        Verb::List => LIST_HELP,
        Verb::Count => "usage: mst count FILE\n\nPrints how many keys there are.\n",
        Verb::Root => ROOT_HELP,
        Verb::HashKey => HASH_KEY_HELP,
        Verb::Status => STATUS_HELP,
        Verb::Import => IMPORT_HELP,
        Verb::Export => EXPORT_HELP,
        Verb::Compact => COMPACT_HELP,
        Verb::Shell => SHELL_HELP,
        Verb::Serve => SERVE_HELP,
        Verb::Pull => PULL_HELP,
        Verb::Diff => DIFF_HELP,
        Verb::Backup => BACKUP_HELP,
        Verb::History => HISTORY_HELP,
        Verb::Check => CHECK_HELP,
        Verb::Rebuild => REBUILD_HELP,
    }
}

/// The help of the program.
pub const HELP: &str = "\
A replicated key-value store in one SQLite file.

usage: mst COMMAND FILE [WORDS]

  init FILE [WRITER]     makes a store
  put FILE KEY VALUE     writes a value under a key; the value - is read from standard input
  get FILE KEY           prints the value of a key
  del FILE KEY           removes a key
  history FILE KEY       prints the rows of a key, with times and writers
  list FILE              prints each key with its value
  count FILE             prints how many keys there are
  status FILE            prints what the file holds
  check FILE             reads everything in the file, and prints the same
  root FILE              prints the root hash, equal for copies with the same last rows
  hash-key FILE          prints the hash key, which all copies of a store share
  import FILE            writes the CSV on standard input
  export FILE            prints the keys and values as CSV
  compact FILE           leaves one row in the file for each key
  backup FILE TO         makes a copy with all rows, to be restored by cp
  rebuild FILE           writes the file anew: one of format 3, or one whose tree is damaged
  shell FILE             reads commands from standard input, one a line
  serve FILE             answers a peer on standard input and standard output
  pull FILE              fetches what a peer on standard input and standard output has later
  diff FILE              prints the keys that a pull would bring

mst help COMMAND describes a command. Words after -- are never options. mst --version prints the version.
Each command except init takes --wait SECONDS: while another process has the file, it tries again for that long, 5 seconds
by default and not at all for 0.
The status is 0 if all went well, and otherwise a line on standard error says why: 1 the key isn't there, or isn't as
--if-absent or --if-value asks, 2 the command line is wrong, 3 another process has the file, 4 the file is damaged,
5 it isn't a store that this version reads, 6 the disk or the file is full, 7 the peer failed, 8 an entry is more than a
day ahead of the clock, 9 anything else.
";
