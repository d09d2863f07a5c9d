// The text of the cases, read from the front. What is malformed is None.
ghost use Rattle.std.specs.Prelude.{◌≡◌, ◌∷◌, ◌++◌, ◌<◌, ◌≤◌, length, IfSome};
ghost use Rattle.replaying.specs.Cases.{IsPart};

use text::LINE_END;

// What is left of them.
#[derive(Clone, Copy)]
pub struct Cases<'a> {
    pub rest: &'a [u8],
}

impl<'a> Cases<'a> {
    pub fn new(text: &'a [u8]) -> Cases<'a>
        ensures { result.rest.now ≡ text.now }
    {
        Cases { rest: text }
    }

    pub fn len(&self) -> usize
        ensures { result ≡ length self.now.rest.now }
    {
        self.rest.len()
    }

    pub fn is_empty(&self) -> bool {
        self.rest.is_empty()
    }

    // The byte `b`.
    fn past(&mut self, b: u8) -> Option<()>
        ensures { IfSome result (λ x. self.old.rest.now ≡ b ∷ self.new.rest.now) }
    {
        let (first, rest) = self.rest.split_first()?;
        if *first != b {
            return None;
        }
        self.rest = rest;
        Some(())
    }

    // The text of a number, and the byte behind it.
    fn digits(&mut self, separator: u8) -> Option<&'a [u8]>
        ensures { IfSome result (λ digits. self.old.rest.now ≡ digits.now ++ (separator ∷ self.new.rest.now)) }
    {
        let end = text::seek(self.rest, 0, separator);
        if end >= self.rest.len() {
            return None;
        }
        let digits = &self.rest[..end];
        self.rest = &self.rest[end + 1..];
        Some(digits)
    }

    // The header line: a letter and N numbers, each as the program writes them.
    pub fn header<const N: usize, F: Fn(&[u8]) -> Option<u64>>(
        &mut self,
        letter: u8,
        number: F,
    ) -> Option<[u64; N]>
        requires { F.IsAlwaysCallable number }
        ensures { IfSome result (λ values. length self.new.rest.now < length self.old.rest.now) }
    {
        let mut values = [0u64; N];
        self.past(letter)?;
        self.past(b' ')?;
        for (i, value) in values.iter_mut().enumerate() {
            let separator = if i + 1 < N { b' ' } else { LINE_END };
            *value = number(self.digits(separator)?)?;
        }
        Some(values)
    }

    // A part of `n` bytes, and the LF behind it.
    pub fn part(&mut self, n: u64) -> Option<&'a [u8]>
        ensures { IfSome result (λ part. IsPart n part.now self.old.rest.now self.new.rest.now) }
    {
        let long = usize::try_from(n).ok()?;
        let (part, behind) = self.rest.split_at_checked(long)?;
        self.rest = behind;
        self.past(LINE_END)?;
        Some(part)
    }
}
