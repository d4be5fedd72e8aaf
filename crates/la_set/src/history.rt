ghost use Rattle.std.specs.Prelude.{◌≡◌, ◌+◌, ◌<◌, ◌≤◌, ◌↔◌, [], ◌∷◌, ◌++◌};
ghost use Rattle.std.specs.Prelude.{length, take, drop, slice_get, IsTrue, IfOk, OnOk, OnErr};
ghost use Rattle.std.specs.Prelude.{MatchOption};
ghost use Rattle.std.specs.Option.{option_copied};
ghost use Rattle.la_set.specs.Links.{items_of, lent_items};
ghost use Rattle.la_set.specs.Back.{count_before, before, jumped, IsBack};
ghost use Rattle.la_set.specs.Agreement.{Agree, AgreeBelow, IsFirstDifference, StartsWith};
ghost use Rattle.la_set.specs.Join.{joined};

use std::alloc::{AllocError, Global};
use std::marker::Model;
use std::sync::Arc;

/// The most items that a list may have.
pub const MAX_LEN: usize = 1_000_000_000;

/// Values of which any two can be told apart, or are one.
pub trait Same {
    /// Whether two values are one.
    fn same(&self, other: &Self) -> bool
        ensures { IsTrue result ↔ (self.now ≡ other.now) };
}

/// What a list is kept by: its last item's node, and nothing where it is empty.
pub type Link<T> = Option<Arc<Node<T>>>;

/// A [`Link`] that is lent.
pub type Lent<'a, T> = Option<&'a Arc<Node<T>>>;

/// An item of a list with all items that stand before it.
#[cycle(node)]
#[derive(Drop)]
pub struct Node<T> {
    item: T,
    back: Back<T>,
}

// What stands before an item: how many items, what leads to them, and where the jump leads, to the
// first so many of them. All takes three words: fields lie in the order in which they are written.
#[cycle(node)]
#[derive(Drop)]
enum Back<T> {
    // No items.
    Nothing,
    // The jump leads to none of them.
    Behind {
        len: u32,
        prev: Arc<Node<T>>,
    },
    Jumping {
        len: u32,
        prev: Arc<Node<T>>,
        jump: Arc<Node<T>>,
    },
}

impl<T> Model for Node<T> {
    ghost use Rattle.std.specs.Prelude.{List, ◌++◌, ◌∷◌, [], length};

    ghost Value = { List T };

    ghost use Rattle.la_set.specs.Back.{before, IsBack};

    ghost view = { λ n. before n.back ++ n.item ∷ [] };

    ghost invariant = { λ n. IsBack n.back };

    ghost size = { length };

    ghost use Rattle.std.proofs.Common.{arith, length-append};
    ghost use Rattle.std.proofs.lemmas.List.{length-take};

    ghost size_decreases = { λ a h. Prim.grind (arith, length-append, length-take) };
}

/// A list that grows and shrinks at its end, and shares its items' memory with its copies.
///
/// It is a list with jumps (Myers, "An applicative random-access stack", 1983): each item lies in a
/// node behind the one before, with a second link that leads far back. So an item takes one node,
/// however many lists have it; a copy is one more owner of the last node; and any place is found in
/// logarithmic time.
pub struct History<T> {
    of: Counted<T>,
}

// What leads to a list, and how long that is, so that who asks follows no pointer. Both take two
// words: fields lie in the order in which they are written, so the pointer comes last.
enum Counted<T> {
    // Here too the length is kept, in the same place, so that no test comes before it is read.
    Empty { len: u32 },
    Items { len: u32, last: Arc<Node<T>> },
}

impl<T> Model for History<T> {
    ghost use Rattle.std.specs.Prelude.{List};

    ghost Value = { List T };

    ghost use Rattle.la_set.specs.Counted.{counted_items, IsCounted};

    ghost view = { λ h. counted_items h.of };

    ghost invariant = { λ h. IsCounted h.of };
}

impl<T: Drop> Drop for History<T> {
    fn drop(self) {
        let History { of } = self;
        match of {
            Counted::Empty { len: _ } => {}
            Counted::Items { len: _, last } => release(Some(last)),
        }
    }
}

impl<T> Back<T> {
    // How many items stand there.
    fn len(&self) -> u32
        ensures { result ≡ count_before self.now }
    {
        match self {
            Back::Nothing => 0,
            Back::Behind { len, .. } | Back::Jumping { len, .. } => *len,
        }
    }

    // What leads to all of them.
    fn prev(&self) -> Lent<'_, T>
        ensures { lent_items result ≡ before self.now }
    {
        match self {
            Back::Nothing => None,
            Back::Behind { prev, .. } | Back::Jumping { prev, .. } => Some(prev),
        }
    }

    // What leads to the first so many of them.
    fn jump(&self) -> Lent<'_, T>
        ensures { lent_items result ≡ jumped self.now }
    {
        match self {
            Back::Nothing | Back::Behind { .. } => None,
            Back::Jumping { jump, .. } => Some(jump),
        }
    }

    // The same as a link of its own; what leads to the first so many is let go.
    fn into_prev(self) -> Link<T>
    where
        T: Drop,
        ensures { items_of result ≡ before self }
    {
        match self {
            Back::Nothing => None,
            Back::Behind { len: _, prev } => Some(prev),
            Back::Jumping { len: _, prev, jump } => {
                drop(jump);
                Some(prev)
            }
        }
    }

    // What stands before an item that comes behind all that a node has, and the jump from there.
    fn behind(node: &Arc<Node<T>>, jump: Lent<'_, T>) -> Result<Back<T>, AllocError>
    where
        T: Drop,
        requires few { length node.now.value < MAX_LEN }
        requires front { StartsWith node.now.value (lent_items jump) }
        ensures before { IfOk result (λ back. before back ≡ node.now.value) }
        ensures stands { IfOk result (λ back. IsBack back) }
    {
        let len = len_at(node);
        let prev = Arc::try_clone(node)?;
        let Some(jump) = jump else {
            return Ok(Back::Behind { len, prev });
        };
        let jump = Arc::try_clone(jump)?;
        Ok(Back::Jumping { len, prev, jump })
    }
}

// Lets a link go. The nodes that go with it go one after another, and not one within the other, so
// that the stack doesn't grow with the list.
fn release<T: Drop>(link: Link<T>) {
    let mut at = link;
    while let Some(node) = at {
        at = match Arc::into_inner(node) {
            Some(node) => {
                let Node { item, back } = node;
                drop(item);
                back.into_prev()
            }
            None => None,
        };
    }
}

impl<T> History<T> {
    /// The list's [`Link`], lent.
    pub fn link(&self) -> Lent<'_, T>
        ensures { lent_items result ≡ self.now }
    {
        match &self.of {
            Counted::Empty { .. } => None,
            Counted::Items { last, .. } => Some(last),
        }
    }

    /// How many items the list has, at constant cost.
    pub fn len(&self) -> u32
        ensures { result ≡ length self.now }
    {
        match &self.of {
            Counted::Empty { len } | Counted::Items { len, .. } => *len,
        }
    }

    // The list that ends with a node.
    fn ending(last: Arc<Node<T>>) -> History<T>
        ensures { result ≡ last.value }
    {
        let len = len_at(&last);
        History {
            of: Counted::Items { len, last },
        }
    }

    /// A list of what a link leads to, which shares all items, at constant cost. It is refused for
    /// a full count of owners alone, at 2^63, and takes no memory.
    pub fn of(link: Lent<'_, T>) -> Result<History<T>, AllocError>
        ensures { IfOk result (λ list. list ≡ lent_items link.entry) }
    {
        Ok(match link {
            None => History {
                of: Counted::Empty { len: 0 },
            },
            Some(node) => History::ending(Arc::try_clone(node)?),
        })
    }

    /// A list of the first `len` items to which a link leads, which it shares, at logarithmic cost.
    /// It is refused for a full count of owners alone, as [`History::of`] is.
    pub fn front_of(link: Lent<'_, T>, len: usize) -> Result<History<T>, AllocError>
        requires { len ≤ length (lent_items link) }
        ensures { IfOk result (λ front. front ≡ take len (lent_items link.entry)) }
    {
        History::of(first(link, len))
    }

    /// Adds what a list that begins with this one has beyond it, and shares it: at constant cost.
    /// Where it has nothing more, this list stays. After a refusal the list is unchanged.
    pub fn extend_from(&mut self, other: Lent<'_, T>) -> Result<(), AllocError>
    where
        T: Drop,
        requires { AgreeBelow self.old (lent_items other) (length self.old) }
        ensures ok { OnOk result (self.new ≡ joined self.old (lent_items other.entry)) }
        ensures err { OnErr result (self.new ≡ self.old) }
    {
        if len_of(self.link()) >= len_of(other) {
            return Ok(());
        }
        let longer = History::of(other)?;
        *self = longer;
        Ok(())
    }

    /// Puts an item last, at constant cost: one node is taken, whatever else shares the list. Where
    /// memory is refused the list is unchanged, and the item is dropped.
    pub fn push(&mut self, alloc: Global, item: T) -> Result<(), AllocError>
    where
        T: Drop,
        requires { length self.old < MAX_LEN }
        ensures ok { OnOk result (self.new ≡ self.old ++ item ∷ []) }
        ensures err { OnErr result (self.new ≡ self.old) }
    {
        let last = longer(alloc, self.link(), item)?;
        *self = History::ending(last);
        Ok(())
    }
}

/// The item at a place, from 0, at logarithmic cost.
pub fn item_at<T>(link: Lent<'_, T>, place: usize) -> Option<&T>
    ensures { option_copied result ≡ slice_get (lent_items link.entry) place }
{
    if place >= len_of(link) {
        return None;
    }
    Some(step_back(first(link, place + 1)).item)
}

/// The first place at which both lists have an item and these differ. The cost is linear in the
/// shorter list's length, and logarithmic in how much longer the other is.
pub fn first_difference<T: Same>(one: Lent<'_, T>, other: Lent<'_, T>) -> Option<usize>
    ensures { MatchOption result (Agree (lent_items one.entry) (lent_items other.entry))
        (λ place. IsFirstDifference (lent_items one.entry) (lent_items other.entry) place) }
{
    first_difference_from(one, other, 0)
}

/// The first place at which both lists have an item and these differ, of lists that are known to
/// have the same at the places below this one: they are compared from it on. The cost is linear in
/// what the shorter list has from there on, and logarithmic in how much longer the other is.
pub fn first_difference_from<T: Same>(
    one: Lent<'_, T>,
    other: Lent<'_, T>,
    from: usize,
) -> Option<usize>
    requires { AgreeBelow (lent_items one) (lent_items other) from }
    ensures { MatchOption result (Agree (lent_items one.entry) (lent_items other.entry))
        (λ place. IsFirstDifference (lent_items one.entry) (lent_items other.entry) place) }
{
    let mut left = len_of(one).min(len_of(other));
    let mut mine = first(one, left);
    let mut theirs = first(other, left);
    let mut found = None;
    while left > from {
        left -= 1;
        let (ours, its) = (step_back(mine), step_back(theirs));
        if !ours.item.same(its.item) {
            found = Some(left);
        }
        mine = ours.prev;
        theirs = its.prev;
    }
    found
}

/// Whether the first list begins with the second. The lengths are compared first; the cost is that
/// of [`first_difference`].
pub fn begins_with<T: Same>(one: Lent<'_, T>, other: Lent<'_, T>) -> bool
    ensures { IsTrue result ↔ StartsWith (lent_items one.entry) (lent_items other.entry) }
{
    len_of(one) >= len_of(other) && first_difference(one, other).is_none()
}

/// An item, and what stands before it.
#[derive(Clone, Copy)]
pub struct Step<'a, T> {
    pub item: &'a T,
    pub prev: Lent<'a, T>,
}

/// How many items a link leads to, at constant cost.
pub fn len_of<T>(link: Lent<'_, T>) -> usize
    ensures { result ≡ length (lent_items link.entry) }
{
    match link {
        None => 0,
        Some(node) => len_at(node) as usize,
    }
}

fn len_at<T>(node: &Node<T>) -> u32
    ensures { result ≡ length node.now }
{
    node.back.len() + 1
}

/// The last item, and what stands before it, at constant cost.
pub fn step_back<T>(link: Lent<'_, T>) -> Step<'_, T>
    requires { 0 < length (lent_items link) }
    ensures { lent_items link.entry ≡ lent_items result.prev ++ result.item.now ∷ [] }
{
    match link {
        None => unreachable!(),
        Some(node) => {
            let Node { item, back } = &**node;
            Step {
                item,
                prev: back.prev(),
            }
        }
    }
}

/// What leads to the first `len` items of a list, at logarithmic cost.
pub fn first<T>(link: Lent<'_, T>, len: usize) -> Lent<'_, T>
    requires { len ≤ length (lent_items link) }
    ensures { lent_items result ≡ take len (lent_items link.entry) }
{
    let mut at = link;
    while len_of(at) > len {
        at = nearer(at, len);
    }
    at
}

// A link to fewer items, but not to fewer than so many: as far back as one step leads.
fn nearer<T>(link: Lent<'_, T>, len: usize) -> Lent<'_, T>
    requires { len < length (lent_items link) }
    ensures front { StartsWith (lent_items link.entry) (lent_items result) }
    ensures fewer { length (lent_items result) < length (lent_items link.entry) }
    ensures enough { len ≤ length (lent_items result) }
{
    match link {
        None => unreachable!(),
        Some(node) => {
            // a hint to the prover: the pointer is followed once, so that the test and the answer
            // speak of one node
            let back = &node.back;
            if len_of(back.jump()) >= len {
                back.jump()
            } else {
                back.prev()
            }
        }
    }
}

// A node with an item behind all that a link leads to.
fn longer<T: Drop>(alloc: Global, link: Lent<'_, T>, item: T) -> Result<Arc<Node<T>>, AllocError>
    requires { length (lent_items link) < MAX_LEN }
    ensures { IfOk result (λ node. node.value ≡ lent_items link.entry ++ item ∷ []) }
{
    let back = match link {
        None => Back::Nothing,
        Some(node) => Back::behind(node, far_back(link))?,
    };
    Ok(Arc::new(alloc, Node { item, back })?)
}

// Where the jump of a node behind this link leads: as far again as the last two jumps, where these
// are of one length, and else to this link.
fn far_back<T>(link: Lent<'_, T>) -> Lent<'_, T>
    ensures { StartsWith (lent_items link.entry) (lent_items result) }
{
    let near = jump_of(link);
    let far = jump_of(near);
    if len_of(link) - len_of(near) == len_of(near) - len_of(far) {
        far
    } else {
        link
    }
}

fn jump_of<T>(link: Lent<'_, T>) -> Lent<'_, T>
    ensures front { StartsWith (lent_items link.entry) (lent_items result) }
    ensures fewer { length (lent_items result) ≤ length (lent_items link.entry) }
{
    match link {
        None => link,
        Some(node) => node.back.jump(),
    }
}
