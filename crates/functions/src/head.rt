// A function of the file by the place of its record 7, as what it declares is tested.
ghost use Rattle.std.specs.Prelude.{◌<◌};
ghost use Rattle.terms.specs.Extents.{Terms};
ghost use Rattle.functions.specs.Functions.{place_limit, terms_prop};

// The file, how many terms it has, and the place.
#[derive(Clone, Copy)]
pub struct Head<'a> {
    pub file: &'a [u8],
    pub terms: usize,
    pub place: usize,
    pub ghost counted: { Terms file.now terms } by { terms_prop file.now terms },
    pub ghost below: { place < place_limit },
}
