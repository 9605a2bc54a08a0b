/// One sample of the currents of phases a, b and c, in counts of the converter.
#[derive(Clone, Copy, Debug, PartialEq, Eq, Hash, Default)]
pub struct Phases {
    pub a: i16,
    pub b: i16,
    pub c: i16,
}

/// The samples of all stations at one instant, by station. In a set of two stations the third is zero.
#[derive(Clone, Copy, Debug, PartialEq, Eq, Default)]
pub struct SampleSet {
    /// The number of the instant, in spacings of samples.
    pub number: u32,
    pub values: [Phases; 3],
}
