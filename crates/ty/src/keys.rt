// The order of types and of names by their first bytes, several at once: most of what is passed on the way to a place is told by them.
// (Types by eight bytes at once: an old union of 584 members takes 1,315,346 instructions, told by letter, third byte and four more 1,512,850.
// Each size has its own functions, since no trait has `from_be_bytes`.)
ghost use Rattle.std.specs.Prelude.{◌≡◌, true, ℕ, ◌+◌, ◌≤◌, ◌<◌, length, get_or};
ghost use Rattle.ty.specs.Keys.{key_of, byte_before, value, head_of, Below, name_key, NameBelow};

// Four bytes as one number, so that they are compared at once. (Of names four, where types have eight: an entry may have five bytes.)
#[tactic(auto, unfolding(crate::specs::Keys::key_of))]
fn key_of(a: u8, b: u8, c: u8, d: u8) -> u32
    ensures { result ≡ key_of a b c d }
{
    u32::from_be_bytes([a, b, c, d])
}

// The byte at i, 0 from `end` on.
#[tactic(auto, unfolding(crate::specs::Keys::byte_before))]
fn byte_before(s: &[u8], i: usize, end: usize) -> u8
    requires { end ≤ length s.now }
    ensures { result ≡ byte_before s.now i end }
{
    s[..end].get(i).copied().unwrap_or(0)
}

// Bytes that the beginning of a type is told by.
const HEAD_BYTES: usize = 8;

// Eight bytes as one number.
fn number_of(bytes: [u8; HEAD_BYTES]) -> u64
    ensures { result ≡ value (λ j. get_or bytes j 0) 8 }
{
    u64::from_be_bytes(bytes)
}

// The first eight bytes of the type [n..m) as one number. What it does not have counts as zeros, below every byte of a line, as a text
// comes after its own beginnings.
pub fn head_of(s: &[u8], n: usize, m: usize) -> u64
    requires { (n + 2 ≤ m) × (m ≤ length s.now) }
    ensures { result ≡ head_of s.now n m }
{
    let a = byte_before(s, n, m);
    let b = byte_before(s, n + 1, m);
    let c = byte_before(s, n + 2, m);
    let d = byte_before(s, n + 3, m);
    let e = byte_before(s, n + 4, m);
    let f = byte_before(s, n + 5, m);
    let g = byte_before(s, n + 6, m);
    let h = byte_before(s, n + 7, m);
    number_of([a, b, c, d, e, f, g, h])
}

// Whether its first eight bytes alone tell that the type at q comes before the type at n, which begins with x.
pub fn is_below(s: &[u8], q: usize, n: usize, x: u64) -> bool
    requires { (q < n) × (n + 1 < length s.now) }
    ensures { result ≡ true → (m : ℕ) → x ≡ head_of s.now n m → Below s.now q n m }
{
    if s.len() - n < HEAD_BYTES {
        return false;
    }
    let first = number_of([
        s[q],
        s[q + 1],
        s[q + 2],
        s[q + 3],
        s[q + 4],
        s[q + 5],
        s[q + 6],
        s[q + 7],
    ]);
    first < x
}

// The first four bytes of a name as one number, zeros for what it does not have.
pub fn name_key(name: &[u8]) -> u32
    ensures { result ≡ name_key name.now }
{
    let n = name.len();
    let a = byte_before(name, 0, n);
    let b = byte_before(name, 1, n);
    let c = byte_before(name, 2, n);
    let d = byte_before(name, 3, n);
    key_of(a, b, c, d)
}

// Whether four bytes alone tell that what begins at q comes before the name, of which `low` is the key.
pub fn is_name_below(s: &[u8], q: usize, name: &[u8], low: u32) -> bool
    requires { (q + 4 ≤ length s.now) × (low ≡ name_key name.now) }
    ensures { result ≡ true → NameBelow s.now q name.now }
{
    key_of(s[q], s[q + 1], s[q + 2], s[q + 3]) < low
}
