ghost use Rattle.std.specs.Prelude.{◌≡◌, ◌+◌, ◌≤◌, length, nat_eq, IsTrue};
ghost use Rattle.std.specs.List.{starts_with};
ghost use Rattle.ldp_tokens.specs.Mark.{mark, mark_len, without_mark};

/// A text without the byte order mark of UTF-8, EF BB BF, that it may begin with.
pub fn skip_mark(text: &[u8]) -> &[u8]
    ensures rest { result.now ≡ without_mark text.now }
    ensures skipped { length text.now ≡ mark_len text.now + length result.now }
{
    if begins_with_mark(text) {
        let (_, rest) = text.split_at(3);
        rest
    } else {
        text
    }
}

fn begins_with_mark(text: &[u8]) -> bool
    ensures value { result ≡ starts_with nat_eq text.now mark }
    ensures within { IsTrue result → 3 ≤ length text.now }
{
    matches!(text, [0xef, 0xbb, 0xbf, ..])
}
