// A line's words, and what each is to name: none where it names no such thing.

#[derive(Clone, Copy)]
pub struct Words<'a> {
    line: &'a [u8],
}

impl<'a> Words<'a> {
    pub fn of(line: &'a [u8]) -> Words<'a> {
        Words { line }
    }

    // How many there are behind the name, which is word 0.
    pub fn count(self) -> usize {
        script::arguments(self.line)
    }

    // The same words, where there are n behind the name.
    pub fn exactly(self, n: usize) -> Option<Words<'a>> {
        if self.count() == n { Some(self) } else { None }
    }

    // A command that has none.
    pub fn alone<T: Drop>(self, command: T) -> Option<T> {
        if self.count() == 0 {
            Some(command)
        } else {
            None
        }
    }

    pub fn word(self, k: usize) -> &'a [u8] {
        script::word(self.line, k)
    }

    pub fn name(self, k: usize) -> u64 {
        script::name_at(self.line, k)
    }

    pub fn number(self, k: usize) -> Option<u64> {
        script::number_at(self.line, k)
    }

    pub fn index(self, k: usize) -> Option<usize> {
        Some(self.number(k)? as usize)
    }

    pub fn up_to(self, k: usize, most: usize) -> Option<usize> {
        self.index(k).filter(|n| *n <= most)
    }

    pub fn small(self, k: usize) -> Option<u32> {
        script::number32(self.word(k))
    }

    pub fn byte(self, k: usize) -> Option<u8> {
        u8::try_from(self.number(k)?).ok()
    }

    pub fn day(self, k: usize) -> Option<u32> {
        script::day_at(self.line, k)
    }

    // In words k to l.
    pub fn time(self, k: usize, l: usize) -> Option<u64> {
        script::time(self.line, k, l)
    }

    pub fn identifier(self, k: usize) -> Option<&'a [u8]> {
        let word = self.word(k);
        if word.len() == format::IDENTIFIER {
            Some(word)
        } else {
            None
        }
    }

    // The number of a class: another letter than the classes' is none of them.
    pub fn class(self, k: usize) -> Option<u64> {
        match self.word(k) {
            b"a" => Some(1),
            b"b" => Some(2),
            b"c" => Some(3),
            b"d" => Some(4),
            [b'A'..=b'Z' | b'e'..=b'z'] => Some(0),
            _ => None,
        }
    }

    pub fn is_single(self, k: usize) -> Option<bool> {
        match self.word(k) {
            b"s" => Some(true),
            b"p" => Some(false),
            _ => None,
        }
    }
}
