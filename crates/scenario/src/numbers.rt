// The small readers of a line: blanks, its end, and a decimal number. Each takes what is left of the line, and hands back what it leaves of it.
ghost use Rattle.std.specs.Prelude.{◌≡◌, ◌≤◌, IfSome};
ghost use Rattle.scenario.specs.Line.{digits as digits_of, ends as ends_of, skipped, number_in};
ghost use Rattle.scenario.specs.Number.{number_told};

// What stands behind the blanks.
#[tactic(auto, unfolding(crate::specs::Line::skipped))]
fn skip(l: &[u8]) -> &[u8]
    ensures { result.now ≡ skipped l.now }
{
    let mut rest = l;
    // It goes by what is left, and counts nothing.
    while let [b' ' | b'\t', tail @ ..] = rest {
        rest = tail;
    }
    rest
}

// Nothing but blanks, and perhaps a comment.
#[tactic(auto, unfolding(crate::specs::Line::ends))]
pub(crate) fn ends(l: &[u8]) -> bool
    ensures { result ≡ ends_of l.now }
{
    matches!(skip(l), [] | [b'#', ..])
}

// The digits at the front, as a number up to the limit. No `parse`: they may end inside the line, and the limit stops them.
#[tactic(auto, unfolding(crate::specs::Line::digits))]
fn digits(l: &[u8], limit: u16) -> Option<(u16, &[u8])>
    ensures value { number_told result ≡ digits_of limit 0 l.now }
    ensures most { IfSome result (λ r. r.0 ≤ limit) }
{
    let most = u32::from(limit);
    let mut n: u32 = 0;
    let mut rest = l;
    // As in `skip`. The cast below loses nothing, by the limit.
    while let [digit @ b'0'..=b'9', tail @ ..] = rest {
        n = 10 * n + u32::from(*digit - b'0');
        if most < n {
            return None;
        }
        rest = tail;
    }
    Some((n as u16, rest))
}

// Blanks, and a number up to the limit.
#[tactic(auto, unfolding(crate::specs::Line::number_in))]
pub(crate) fn number(l: &[u8], limit: u16) -> Option<(u16, &[u8])>
    ensures value { number_told result ≡ number_in limit l.now }
    ensures most { IfSome result (λ r. r.0 ≤ limit) }
{
    let rest = skip(l);
    if !matches!(rest, [b'0'..=b'9', ..]) {
        return None;
    }
    digits(rest, limit)
}
