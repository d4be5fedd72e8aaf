// The type alone: what cites it names its invariants.
ghost use Rattle.std.specs.Prelude.{◌≡◌, ◌≤◌, true, string_bytes};
ghost use Rattle.std.specs.Option.{ForSome};
ghost use Rattle.la_call.specs.Words.{is_request_name, is_request};

/// What a call is called with.
#[derive(Drop)]
pub struct CallOptions {
    /// The file that is read, where it is not standard input.
    pub input: Option<String>,
    /// The file that is written, where it is not standard output.
    pub output: Option<String>,
    /// How many seconds without input are a time-out at first, at most 3,600; with 0 there is none.
    pub wait: u16,
    /// How often a request may be written that may be repeated, 1 to 1,000 times.
    pub times: u16,
    /// The name of the request, where it is not drawn.
    pub name: Option<String>,
    /// The request, without a name.
    pub request: String,
    ghost some: { 1 ≤ times },
    ghost named: { ForSome name (λ n. is_request_name (string_bytes n) ≡ true) },
    ghost asks: { is_request (string_bytes request) ≡ true },
}
