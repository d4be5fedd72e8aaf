// What the definitions mean: laws over every call, which no code runs.
ghost use Rattle.std.specs.Prelude.{◌≡◌, ◌≤◌, ◌+◌, ◌*◌, ◌↔◌, ◌∷◌, ◌++◌, ℕ, List, true, false, length, All, Some, None};
ghost use Rattle.std.specs.Prelude.{[], Ok, IsTrue, codes};
ghost use Rattle.la_set.specs.declared.update.Op.{Op};
ghost use Rattle.la_set.specs.declared.update.Update.{Update};
ghost use Rattle.la_set.specs.declared.update.UpdateId.{UpdateId};
ghost use Rattle.la_replica.specs.Parcels.{AreAlikeParcels};
ghost use Rattle.la_node.specs.declared.link.Letter.{Letter};
ghost use Rattle.la_script.specs.declared.forms.Keyword.TheVariants as keyword;
ghost use Rattle.la_script.specs.Forms.{spelling};
ghost use Rattle.la_script.specs.Numbers.{u8_max};
ghost use Rattle.la_script.specs.Text.{id_text};
ghost use Rattle.la_io.specs.Limits.{is_too_long};
ghost use Rattle.la_wire.specs.Messages.{WireMessage, letter_message};
ghost use Rattle.la_wire.specs.MessageLines.{carried, message_text};
ghost use Rattle.la_wire.specs.Calls.{WireCall, Submit, Receive};
ghost use Rattle.la_wire.specs.CallLines.{call_line_text, named_call, bounded_call_of, may_stand};
ghost use Rattle.la_wire.specs.Writable.{IsId, IsCall, IsMessage, IsTypedMessage, IsTagless, IsUpdate};
ghost use Rattle.la_wire.specs.Notes.{update_note};
ghost use Rattle.la_wire.specs.Told.{told_line, update_in_note};
ghost use Rattle.la_wire.specs.Tests.{is_call};
ghost use Rattle.la_wire.specs.Requests.{has_no_at, is_name, is_of_peer, asked_in, nameless};
ghost use Rattle.la_wire.specs.Joined.{front_word};
ghost use Rattle.la_wire.specs.Requests.{NumberedLine, numbered_in, numbered_submission, IsSubmission};
ghost use Rattle.la_wire.specs.declared.questions.Question.{Question};
ghost use Rattle.la_wire.specs.declared.questions.Take.{Take};
ghost use Rattle.la_wire.specs.Questions.{question_in, take_in, awaited_in, question_text, take_text, IsQuestion, IsTake};

/// What is written of a call names that call.
pub fn calls_are_read_back()
    ensures { (c : WireCall) → IsCall c → named_call (call_line_text c) ≡ Some c }
{}

/// A line that was written of a letter says that letter, or none at all: it is never read as another one. The letter
/// need not be one that can be had: its numbers are in the ranges of their types, and no more.
pub fn letters_are_read_back_or_not()
    ensures { (m n : WireMessage) → IsTypedMessage m → named_call (message_text m) ≡ Some (Receive n) → n ≡ m }
{}

/// The line of a letter has at most 320 bytes, and 1,000 more for each update that it carries, or 48 where no update
/// is a remove. So with up to 268,000 updates it is not too long to be read, and read as it was written.
pub fn lines_of_letters_have_bounds()
    ensures any { (m : WireMessage) → IsTypedMessage m
        → length (message_text m) ≤ 320 + 1000 * length (carried m.body) }
    ensures tagless { (m : WireMessage) → IsTypedMessage m → All (λ u. IsTagless u.op) (carried m.body)
        → length (message_text m) ≤ 320 + 48 * length (carried m.body) }
    ensures taken { (m : WireMessage) → IsTypedMessage m → length (carried m.body) ≤ 268000
        → is_too_long (message_text m) ≡ false }
    ensures back { (m : WireMessage) → IsMessage m → length (carried m.body) ≤ 268000
        → bounded_call_of (message_text m) ≡ Ok (Receive m) }
{}

/// What is written of a call may stand in a file of lines: it has no byte 0 and no line's end, and does not begin
/// with `=` or `~`.
pub fn calls_may_stand_in_files()
    ensures { (c : WireCall) → IsCall c → may_stand (call_line_text c) ≡ true }
{}

/// A client's line is read apart as it was put together, of a call without an `@` and of a name; and such a call alone
/// has no name.
pub fn requests_are_read_apart()
    ensures named { (line name : List ℕ) → has_no_at line ≡ true → is_name name ≡ true
        → is_of_peer (line ++ 32 ∷ 64 ∷ name) ≡ false
        → asked_in (line ++ 32 ∷ 64 ∷ name) ≡ record { call = line; name = name } }
    ensures nameless { (line : List ℕ) → has_no_at line ≡ true → asked_in line ≡ nameless line }
{}

/// A submission that was written under a number is read as that number and the plain line of its call. A line that says
/// a call has no number, so that none is taken for another; and what is called for under a number is a submission, as is
/// what is written of one.
pub fn numbers_are_read_apart()
    ensures numbered { (id : UpdateId) (object : ℕ) (op : Op) → IsId id
        → numbered_in (numbered_submission id object op)
        ≡ Some (record { number = id.number; plain = call_line_text (Submit id.replica object op) }) }
    ensures plain { (line : List ℕ) (c : WireCall) → named_call line ≡ Some c → numbered_in line ≡ None }
    ensures submits { (line : List ℕ) (n : NumberedLine) (c : WireCall) → numbered_in line ≡ Some n
        → named_call n.plain ≡ Some c → IsSubmission c }
    ensures written { (replica object : ℕ) (op : Op) (c : WireCall)
        → named_call (call_line_text (Submit replica object op)) ≡ Some c → IsSubmission c }
{}

/// A question, and a take, is read as it was written; and a question that waits for an update as that update and the
/// line of the question. A line that says a call is none of these, so that none is taken for another.
pub fn questions_are_read_apart()
    ensures question { (q : Question) → IsQuestion q → question_in (question_text q) ≡ Some q }
    ensures take { (t : Take) → IsTake t → take_in (take_text t) ≡ Some t }
    ensures awaited { (line : List ℕ) (id : UpdateId) → front_word line ≡ spelling keyword.Ask → IsId id
        → awaited_in (line ++ codes " at " ++ id_text id) ≡ Some (record { after = id; plain = line }) }
    ensures no_question { (line : List ℕ) (c : WireCall) → named_call line ≡ Some c → question_in line ≡ None }
    ensures no_take { (line : List ℕ) (c : WireCall) → named_call line ≡ Some c → take_in line ≡ None }
    ensures none_awaited { (line : List ℕ) (c : WireCall) → named_call line ≡ Some c → awaited_in line ≡ None }
{}

/// What a node tells of an update, in answer to a request with a name or without one, is read as that update.
pub fn told_updates_are_read_back()
    ensures line { (own : ℕ) (u : Update) (name : List ℕ) → update_note own u name ≡ told_line own u name ++ 10 ∷ [] }
    ensures nameless { (own : ℕ) (u : Update) → own ≤ u8_max → IsUpdate u → update_in_note (told_line own u []) ≡ Ok u }
    ensures named { (own : ℕ) (u : Update) (name : List ℕ) → own ≤ u8_max → IsUpdate u → is_name name ≡ true
        → update_in_note (told_line own u name) ≡ Ok u }
{}

/// Whether a call can be had is a test.
pub fn the_test_decides()
    ensures { (c : WireCall) → IsTrue (is_call c) ↔ IsCall c }
{}

/// Letters that say the same have parcels that are alike, whatever their deltas were made of, and are of senders as
/// far and of groups as large.
pub fn what_says_the_same_is_alike()
    ensures { (a b : Letter) → letter_message a ≡ letter_message b
        → AreAlikeParcels a.parcel b.parcel × (a.progress ≡ b.progress) × (a.replicas ≡ b.replicas) }
{}
