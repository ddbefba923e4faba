//! An iterator with its next item.
ghost use Rattle.std.specs.Iterator.{IsFinite};
ghost use Rattle.std.specs.Prelude.{◌≡◌, ◌<◌, List, IfSome, IfNone};
ghost use Rattle.merkle_diff.specs.Lookahead.{CanGoOn, LeavesItems, items_left};

/// An iterator whose next item was taken already.
#[derive(Drop)]
pub struct Lookahead<I, X> {
    pub head: Option<X>,
    pub rest: I,
}

/// Takes the first item of `iter`.
pub fn look_ahead<I: Iterator<Item = X>, X>(mut iter: I) -> Lookahead<I, X>
    requires can { I.can_next iter }
    requires ends { IsFinite (I.remaining iter) }
    ensures steps { I.next_gives iter result.head result.rest }
    ensures goes { CanGoOn I.can_next I.remaining result }
{
    let head = iter.next();
    Lookahead { head, rest: iter }
}

/// Takes the head of `queue`, and puts the next item in its place.
pub fn take_head<I: Iterator<Item = X>, X: Drop>(queue: &mut Lookahead<I, X>) -> Option<X>
    requires { CanGoOn I.can_next I.remaining queue.old }
    ensures head { result ≡ queue.old.head }
    ensures steps { IfSome queue.old.head (λ _. I.next_gives queue.old.rest queue.new.head queue.new.rest) }
    ensures ended { IfNone queue.old.head (queue.new ≡ queue.old) }
    ensures goes { CanGoOn I.can_next I.remaining queue.new }
    ensures nearer { IfSome queue.old.head (λ _. items_left I.remaining queue.new < items_left I.remaining queue.old) }
{
    match queue.head.take() {
        Some(item) => {
            queue.head = queue.rest.next();
            Some(item)
        }
        None => None,
    }
}

/// Takes what is left to the end.
pub fn drain<I: Iterator<Item = X>, X: Drop>(mut queue: Lookahead<I, X>)
    requires { CanGoOn I.can_next I.remaining queue }
    ensures { (xs : List X) × LeavesItems I.next_gives queue xs }
{
    'items: while let Some(_) = take_head(&mut queue) {}
}
