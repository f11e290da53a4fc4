// Where a piece of a text ends.
ghost use Rattle.std.specs.Prelude.{◌≡◌, ◌+◌, ◌≤◌, length, drop, ◌==◌};
ghost use Rattle.std.specs.List.{position_or_len};

// The first place from `at` on that holds `mark`, or the end.
pub(crate) fn find(text: &[u8], mark: u8, at: usize) -> usize
    requires { at ≤ length text.now }
    ensures place { result ≡ at + position_or_len (λ c. c == mark) (drop at text.now) }
    ensures within { result ≤ length text.now }
{
    match text[at..].iter().position(|c| *c == mark) {
        Some(n) => at + n,
        None => text.len(),
    }
}
