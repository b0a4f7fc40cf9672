// A line and its words, the longest runs of bytes other than the space.
ghost use Rattle.std.specs.Prelude.{◌≡◌, ◌≤◌, length};
ghost use Rattle.std.specs.List.{prefix_len};
ghost use Rattle.std.specs.Option.{option_copied};
ghost use Rattle.notation.specs.Words.{is_space, is_other, before, after, without_end, trimmed, first_word, left};

// How many spaces stand at the front.
fn spaces(line: &[u8]) -> usize
    ensures value { result ≡ prefix_len is_space line.now }
    ensures within { result ≤ length line.now }
{
    line.iter().take_while(|b| **b == b' ').count()
}

// How many bytes stand before the first `stop`.
pub fn length_before(bytes: &[u8], stop: u8) -> usize
    ensures value { result ≡ prefix_len (is_other stop) bytes.now }
    ensures within { result ≤ length bytes.now }
{
    bytes.iter().take_while(|b| **b != stop).count()
}

// What stands before the first `stop`, and what follows it: no bytes where there is none.
// What follows is no Option: to every caller a missing part and an empty one are the same.
pub fn split(bytes: &[u8], stop: u8) -> (&[u8], &[u8])
    ensures before { result.0.now ≡ before stop bytes.now }
    ensures after { result.1.now ≡ after stop bytes.now }
{
    let (before, rest) = bytes.split_at(length_before(bytes, stop));
    match rest {
        [_, after @ ..] => (before, after),
        [] => (before, rest),
    }
}

// A line without the line end that it may have.
pub fn without_end(line: &[u8]) -> &[u8]
    ensures { result.now ≡ without_end line.now }
{
    let (bytes, _) = split(line, b'\n');
    bytes
}

// The line after its leading spaces.
pub fn trimmed(line: &[u8]) -> &[u8]
    ensures value { result.now ≡ trimmed line.now }
    ensures within { length result.now ≤ length line.now }
{
    let (_, rest) = line.split_at(spaces(line));
    rest
}

// The first word, and what follows it.
pub fn split_word(line: &[u8]) -> (Option<&[u8]>, &[u8])
    ensures word { option_copied result.0 ≡ first_word line.now }
    ensures left { result.1.now ≡ left line.now }
{
    let (word, left) = split(trimmed(line), b' ');
    ((!word.is_empty()).then_some(word), left)
}
