// Requests, their names, and which lines answer them, as bytes.
ghost use Rattle.std.specs.Prelude.{◌≡◌, ◌==◌, ◌||◌, not, position, codes};
ghost use Rattle.std.specs.List.{list_all, list_any};
ghost use Rattle.la_call.specs.Words.{is_request_name_byte, is_request_name, is_request, first_word, past_first, is_first_word};
ghost use Rattle.la_call.specs.Words.{is_numbered, may_repeat, ends_in, is_answer, third_word, is_refusal, is_waiting};

/// How many bytes the name of a request may have.
pub const MAX_NAME: usize = 32;

fn is_name_byte(b: u8) -> bool
    ensures { result ≡ is_request_name_byte b }
{
    b.is_ascii_alphanumeric() || b == b'_' || b == b'.' || b == b':' || b == b'-'
}

fn are_name_bytes(bytes: &[u8]) -> bool
    ensures { result ≡ list_all is_request_name_byte bytes.now }
{
    bytes.iter().all(|b| is_name_byte(*b))
}

// 1 to 32 letters, digits, `_`, `.`, `:` or `-`.
pub(crate) fn is_name(bytes: &[u8]) -> bool
    ensures { result ≡ is_request_name bytes.now }
{
    if bytes.is_empty() || bytes.len() > MAX_NAME {
        return false;
    }
    are_name_bytes(bytes)
}

fn are_request_bytes(bytes: &[u8]) -> bool
    ensures { result ≡ list_all (λ b. not ((b == 10) || (b == 64))) bytes.now }
{
    bytes.iter().all(|b| !(*b == b'\n' || *b == b'@'))
}

// Not empty, and without LF and `@`.
pub(crate) fn is_request(bytes: &[u8]) -> bool
    ensures { result ≡ is_request bytes.now }
{
    !bytes.is_empty() && are_request_bytes(bytes)
}

fn space_in(line: &[u8]) -> Option<usize>
    ensures { result ≡ position (λ b. b == 32) line.now }
{
    line.iter().position(|b| *b == b' ')
}

// A line's first word, and what stands behind it.
#[tactic(auto, using(crate::proofs::Splits::splits))]
fn split_word(line: &[u8]) -> (&[u8], &[u8])
    ensures front { result.0.now ≡ first_word line.now }
    ensures behind { result.1.now ≡ past_first line.now }
{
    match space_in(line) {
        Some(end) => (&line[..end], &line[end + 1..]),
        None => (line, &[]),
    }
}

fn begins_with(word: &[u8], line: &[u8]) -> bool
    ensures { result ≡ is_first_word word.now line.now }
{
    split_word(line).0 == word
}

fn has_full_stop(word: &[u8]) -> bool
    ensures { result ≡ list_any (λ b. b == 46) word.now }
{
    word.contains(&b'.')
}

fn is_numbered(request: &[u8]) -> bool
    ensures { result ≡ is_numbered request.now }
{
    let (_, behind) = split_word(request);
    begins_with(b"submit", request) && has_full_stop(split_word(behind).0)
}

// Whether a request does no more where it is written twice.
pub(crate) fn may_repeat(request: &[u8]) -> bool
    ensures { result ≡ may_repeat request.now }
{
    begins_with(b"ask", request)
        || begins_with(b"update", request)
        || begins_with(b"status", request)
        || begins_with(b"decide", request)
        || is_numbered(request)
}

fn ends_in(mark: &[u8], line: &[u8]) -> bool
    ensures { result ≡ ends_in mark.now line.now }
{
    line.ends_with(mark)
}

// Whether a line begins with `#` and ends in this.
pub(crate) fn is_answer(mark: &[u8], line: &[u8]) -> bool
    ensures { result ≡ is_answer mark.now line.now }
{
    line.starts_with(b"#") && ends_in(mark, line)
}

fn third_word(line: &[u8]) -> &[u8]
    ensures { result.now ≡ third_word line.now }
{
    let (_, behind) = split_word(line);
    let (_, last) = split_word(behind);
    split_word(last).0
}

// Whether a note is `# rR refused ..`.
pub(crate) fn is_refusal(line: &[u8]) -> bool
    ensures { result ≡ is_refusal line.now }
{
    third_word(line) == b"refused".as_slice()
}

// Whether a note is `# rR waiting ..`.
pub(crate) fn is_waiting(line: &[u8]) -> bool
    ensures { result ≡ is_waiting line.now }
{
    third_word(line) == b"waiting".as_slice()
}
