// The spectrum of a lane: for each e below n the sum of its symbols times root^(j·e).
#![tactic(auto)]

ghost use Rattle.std.specs.Prelude.{◌≡◌, true, length};
ghost use Rattle.lists.specs.Numbers.{all_below};
ghost use Rattle.lists.specs.Padded.{padded};
ghost use Rattle.generator.specs.Records.{size};
ghost use Rattle.spectrum.specs.Inner.Spectrum.{spectrum_of};

mod chirps;

use check_sums::powers::RootPowers;

// The Fourier transform of a lane over a code's field: the powers of the code's root, and the lane, n symbols of the code.
#[derive(Clone, Copy)]
pub struct Transform<'p, 'a> {
    pub powers: RootPowers<'p>,
    pub lane: &'a [u16],
    pub ghost long: { length lane.now ≡ powers.codec.code.header.n },
    pub ghost below: { all_below (size powers.codec.code.header) lane.now ≡ true },
}

impl Transform<'_, '_> {
    // The spectrum of the lane, and zeros after it.
    // An array with zeros after: it is as long as the list that it is made from, so no length stands beside it.
    pub fn spectrum(self) -> [u16; 255]
        ensures { result ≡ padded 255 (spectrum_of self.entry.powers.codec.code.header self.entry.lane.now) }
    {
        let h = self.powers.codec.code.header;
        let n = h.n as usize;
        let size = 2 * n;
        let mut places: [u8; 510] = kernel::filled(0);
        let exponents = &mut places[..size];
        chirps::fill_exponents(n, exponents);
        let mut room: [u16; 510] = kernel::filled(0);
        let row = &mut room[..size];
        self.fill_chirps(exponents, row);
        let weights = self.unchirp(exponents, self.lane);
        let mut sums: [u16; 255] = kernel::filled(0);
        sliding_sums::window_sums(h.field, &weights[..n], row, &mut sums[..n]);
        self.unchirp(exponents, &sums[..n])
    }
}
