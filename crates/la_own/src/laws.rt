// What operations of one's own mean: each law is a call that does nothing, and costs nothing.
ghost use Rattle.std.specs.Prelude.{◌≡◌, ℕ, ◌≤◌, List, All, Some};
ghost use Rattle.la_set.specs.declared.update.Op.{Op};
ghost use Rattle.la_set.specs.declared.set.TheConstants.{REPLICAS};
ghost use Rattle.la_own.specs.Own.{AreOwnBytes, own, own_tags, own_bytes_of};

/// What was put in comes out, and so different bytes are different operations. What comes out of
/// an operation is what it was made of.
pub fn bytes_come_back()
    ensures read { (bytes : List ℕ) → AreOwnBytes bytes → own_bytes_of (own bytes) ≡ Some bytes }
    ensures distinct { (one other : List ℕ) → AreOwnBytes one → AreOwnBytes other
        → own one ≡ own other → one ≡ other }
    ensures made { (op : Op) (bytes : List ℕ) → own_bytes_of op ≡ Some bytes
        → AreOwnBytes bytes × (op ≡ own bytes) }
{}

/// No tag of an operation of one's own names an update, since no replica has such a number. So it
/// takes nothing out of an observed-remove set.
pub fn own_tags_name_no_update()
    ensures { (bytes : List ℕ) → All (λ tag. REPLICAS ≤ tag.replica) (own_tags bytes) }
{}
