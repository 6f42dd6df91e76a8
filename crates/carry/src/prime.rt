// A prime that carries words of 16 binary digits: its field has at least 34,816 symbols, of two bytes. How many bytes carry so many there.
ghost use Rattle.std.specs.Prelude.{◌≡◌, ◌≤◌, ◌<◌};
ghost use Rattle.carrying.specs.Carrying.{group_words, words_length};

#[derive(Clone, Copy)]
pub struct WordPrime {
    pub p: u32,
    pub ghost large: { 34815 < p },
    pub ghost word: { p < 65536 },
}

impl WordPrime {
    // The words of a group.
    pub fn group_words(self) -> usize
        ensures { (result ≡ group_words self.p) × (1 ≤ result) × (result ≤ 255) }
    {
        let most = 61440 / (65536 - self.p);
        (most - 1).min(255) as usize
    }

    // How many bytes carry n.
    pub fn words_length(self, n: usize) -> usize
        requires { n ≤ 4611686018427387904 }
        ensures { result ≡ words_length self.p n }
    {
        let words = n.div_ceil(2);
        (words + words.div_ceil(self.group_words())) * 2
    }
}
