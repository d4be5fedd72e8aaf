// A machine that changes by calls alone, each of which is a line of text.
ghost use Rattle.std.specs.Prelude.{◌≡◌, ◌⊎◌, List, ℕ, Bool, true, Option, Some, None, is_some, IfSome, IfOk, IfErr, OnOk, OnErr};
ghost use Rattle.la_journal.specs.Lines.{IsClean};
ghost use Rattle.la_journal.specs.Journal.{IsCallLine};
ghost use Rattle.la_journal.specs.Machine.{IsNamed, IsStateTaken};

use std::alloc::{AllocError, Global};

pub trait Machine: Drop {
    /// What the machine is given.
    type Input: Drop;
    /// What a call answers.
    type Output: Drop;
    /// Why the machine takes no step, want of memory among it.
    type Refusal: Drop;

    /// What the machine keeps.
    ghost State: { Type 0 };

    ghost state: { Self → State };

    /// What an input asks.
    ghost Call: { Type 0 };

    ghost call: { Self.Input → Call };

    /// One step; none where the call is refused.
    ghost step: { State → Call → Option State };

    /// What a call answers, by the state before it.
    ghost Answer: { Type 0 };

    ghost answer: { Self.Output → Answer };

    ghost answers: { State → Call → Answer };

    /// Whether a call that is answered so has left the machine as it was, for sure: then its line need not be kept.
    ghost still: { Answer → Bool };

    /// A call as a line, and what a line asks.
    ghost text: { Call → List ℕ };

    ghost named: { List ℕ → Option Call };

    /// The state that a text says. Where no journal of the machine is compacted, no text says one.
    ghost named_state: { List ℕ → Option State };

    /// Whether a refusal is for want of memory.
    ghost lacks_memory: { Self.Refusal → Type 0 };

    /// Whether an input is refused so at a state.
    ghost refuses: { State → Self.Input → Self.Refusal → Type 0 };

    /// What a journal's first line says of the machine that wrote it, as its options. A journal with another head is
    /// not played.
    ghost head: { State → List ℕ };

    /// The head of this machine, without a line's end.
    fn head(&self, alloc: Global) -> Result<Vec<u8>, AllocError>
        ensures { IfOk result (λ text. text.items ≡ head (state self.now)) };

    /// Takes a step, or is as before: where there is memory, it is refused exactly where there is no step.
    fn apply(&mut self, input: &Self::Input) -> Result<Self::Output, Self::Refusal>
        ensures step { OnOk result (step (state self.old) (call input.now) ≡ Some (state self.new)) }
        ensures answer { IfOk result (λ output. answer output ≡ answers (state self.old) (call input.now)) }
        ensures refusal { IfErr result (λ refusal. lacks_memory refusal ⊎ (step (state self.old) (call input.now) ≡ None)) }
        ensures cause { IfErr result (refuses (state self.old) input.now) }
        ensures err { OnErr result (state self.new ≡ state self.old) };

    /// Whether the call that was answered so has left the machine as it was, for sure. [`crate::Staged`] alone passes
    /// the lines of such calls over: all else keeps each line.
    fn is_still(output: &Self::Output) -> bool
        ensures { result ≡ still (answer output.now) };

    /// The input's line, without the line's end.
    fn write(alloc: Global, input: &Self::Input) -> Result<Vec<u8>, AllocError>
        ensures { IfOk result (λ line. line.items ≡ text (call input.now)) };

    /// What a line asks; `None` where it asks nothing.
    fn read(alloc: Global, line: &[u8]) -> Result<Option<Self::Input>, AllocError>
        ensures { IfOk result (λ read. IsNamed call (named line.now) read) };

    /// Takes the state that a text says; `false` where it says none.
    fn read_state(&mut self, alloc: Global, bytes: &[u8]) -> Result<bool, AllocError>
        ensures { IfOk result (λ taken. IsStateTaken (named_state bytes.now) (state self.new) taken) };

    /// What was written is read back.
    ghost round_trip: { (c : Call) → named (text c) ≡ Some c };

    /// A line has no line's end within, and no 0, and does not begin with `=`, as a state's does, or `~`, as a record's.
    ghost clean: { (c : Call) → IsCallLine (text c) };

    /// A call that is answered as still is taken, and leaves the machine as it was.
    ghost stays: { (s : State) (c : Call) → still (answers s c) ≡ true → step s c ≡ Some s };

    /// A head has no line's end within, and no 0.
    ghost clean_head: { (s : State) → IsClean (head s) };
}

/// A machine whose journals can be compacted: it writes its state as a text, where it can.
pub trait Snapshot: Machine {
    /// Whether a text of the state is written at all.
    ghost writes: { Self → Bool };

    /// A text of the state, without a line's end; `None` where none is written.
    fn write_state(&self, alloc: Global) -> Result<Option<Vec<u8>>, AllocError>
        ensures variant { IfOk result (λ text. is_some text ≡ writes self.now) }
        ensures read_back { IfOk result (λ text. IfSome text (λ t. Self.named_state t.items ≡ Some (Self.state self.now))) }
        ensures clean { IfOk result (λ text. IfSome text (λ t. IsClean t.items)) };

    /// Whether one is written rests on the state alone.
    ghost by_state: { (a b : Self) → Self.Machine.state a ≡ Self.Machine.state b → writes a ≡ writes b };
}
