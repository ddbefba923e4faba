//! A law over the definitions alone. The function has no effect and takes no memory.
ghost use Rattle.c_sides.specs.Agreeing.{ReplyAlike};

/// A reply of rows that are handed in is one of all rows that are kept, where at the keys and in the gaps that the question asks for the two have the same
/// rows.
pub fn rows_that_agree_have_the_same_reply()
    ensures { ReplyAlike }
{}
