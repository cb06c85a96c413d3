// The grammar of ringline's lines: what a piece of text is. Every public function takes the very bytes that it judges, and asks
// nothing of them.
#![tactic(auto)]

ghost use Rattle.std.specs.Prelude.{◌≡◌, true, false, ◌-◌, ◌<◌, ◌≤◌, eqb, length, drop, position, MatchOption};
ghost use Rattle.text.specs.Numerals.{is_digit, all_digits, spelled, unpadded, is_number, number};
ghost use Rattle.text.specs.Lines.{comma, up_to, past, begins, split};
ghost use Rattle.text.specs.Terms.{term, allowed, terms};
ghost use Rattle.text.specs.Polynomials.{zeros, polynomial, Reads};

// The place of the first such byte.
pub fn find(s: &[u8], byte: u8) -> Option<usize>
    ensures { result ≡ position (eqb byte) s.now }
{
    s.iter().position(|x| byte == *x)
}

// The bytes before the first such byte, all where there is none.
pub fn up_to(s: &[u8], byte: u8) -> &[u8]
    ensures { result.now ≡ up_to byte s.now }
{
    match find(s, byte) {
        Some(end) => &s[..end],
        None => s,
    }
}

// The bytes after the first such byte, none where there is none.
pub fn past(s: &[u8], byte: u8) -> &[u8]
    ensures { result.now ≡ past byte s.now }
{
    match find(s, byte) {
        Some(end) => &s[end + 1..],
        None => &[],
    }
}

// The bytes after the name, where the text begins with it.
pub fn after<'a>(name: &[u8], s: &'a [u8]) -> Option<&'a [u8]>
    ensures { MatchOption result (begins name.now s.now ≡ false) (λ rest. (begins name.now s.now ≡ true) × (rest.now ≡ drop (length name.now) s.now)) }
{
    s.strip_prefix(name)
}

#[tactic(auto, unfolding(crate::specs::Numerals::is_digit))]
fn all_digits(s: &[u8]) -> bool
    ensures { result ≡ all_digits s.now }
{
    s.iter().all(|byte| byte.is_ascii_digit())
}

// What one digit stands for.
fn digit(byte: u8) -> usize
    requires { is_digit byte ≡ true }
    ensures { (result ≡ byte - 48) × (result ≤ 9) }
{
    usize::from(byte - b'0')
}

fn value(s: &[u8]) -> usize
    requires { is_number s.now ≡ true }
    ensures { result ≡ spelled 0 s.now }
{
    s.iter().fold(0, |sum, byte| 10 * sum + digit(*byte))
}

fn unpadded(s: &[u8]) -> bool
    ensures { result ≡ unpadded s.now }
{
    s.len() < 2 || s[0] != b'0'
}

fn is_number(s: &[u8]) -> bool
    ensures { result ≡ is_number s.now }
{
    (1..=5).contains(&s.len()) && all_digits(s) && unpadded(s)
}

// By hand and not by `parse`, which takes a `&str`: UTF-8 and a second way to fail would come in. The digits are summed up only where there are few enough of them.
pub fn number(s: &[u8]) -> Option<usize>
    ensures { result ≡ number s.now }
{
    if is_number(s) { Some(value(s)) } else { None }
}

fn term(s: &[u8]) -> Option<(usize, usize)>
    ensures { result ≡ term s.now }
{
    Some((number(up_to(s, b':'))?, number(past(s, b':'))?))
}

fn in_range(n: usize, low: usize, index: usize, value: usize) -> bool
    ensures test { result ≡ allowed n low index value }
    ensures stored { result ≡ true → (index < n) × (value ≤ 3456) }
{
    (low..n).contains(&index) && (1..=3456).contains(&value)
}

// Term after term into the list, one from each piece between commas. It answers a bool, as `polynomial` does, for `Reads`. A value that
// is in range fits in 16 bits; `try_from` would bring a failure that can't happen.
fn terms_into(s: &[u8], list: &mut [u16]) -> bool
    ensures { Reads result list.new (terms (length list.old) 0 list.old (split comma s.now)) }
{
    let n = list.len();
    let mut low = 0;
    for piece in s.split(|byte| b',' == *byte) {
        let Some((index, value)) = term(piece) else {
            return false;
        };
        if !in_range(n, low, index, value) {
            return false;
        }
        list[index] = value as u16;
        low = index + 1;
    }
    true
}

// The list is cleared first, whatever it held. A bool stands beside it, since `Reads`, of which the promises speak, is said of a bool.
pub fn polynomial(s: &[u8], list: &mut [u16]) -> bool
    ensures { Reads result list.new (polynomial (length list.old) s.now) }
{
    list.fill(0);
    s.is_empty() || terms_into(s, list)
}
