// What the first line of a text says.
ghost use Rattle.std.specs.Prelude.{◌≡◌, true, false, length, MatchOption};
ghost use Rattle.text.specs.Polynomials.{Reads};
ghost use Rattle.lines.specs.Input.{is_line, body, set_in, polynomial_in};

// What stands after the name, where an LF ends the line and it begins with the name.
fn body<'a>(name: &[u8], s: &'a [u8]) -> Option<&'a [u8]>
    ensures { MatchOption result (is_line name.now s.now ≡ false) (λ rest. (is_line name.now s.now ≡ true) × (rest.now ≡ body name.now s.now)) }
{
    let end = text::find(s, b'\n')?;
    text::after(name, &s[..end])
}

pub fn set_in(s: &[u8]) -> Option<usize>
    ensures { result ≡ set_in s.now }
{
    text::number(body(b"set=", s)?)
}

// The list holds the polynomial where there is one. A bool stands beside it, since `Reads`, of which the promises speak, is said of a bool.
pub fn polynomial_in(name: &[u8], s: &[u8], list: &mut [u16]) -> bool
    ensures { Reads result list.new (polynomial_in name.now (length list.old) s.now) }
{
    match body(name, s) {
        Some(terms) => text::polynomial(terms, list),
        None => false,
    }
}
