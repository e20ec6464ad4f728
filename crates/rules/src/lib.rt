// The types of the paper. What is right of them is said in specs/, heading by heading.
#![tactic(auto)]

ghost use Rattle.std.specs.Prelude.{◌≡◌};
ghost use Rattle.rules.specs.Refusals.{number_of};

// "a gain and an offset, a pair of floats kept together"
#[derive(Clone, Copy)]
pub struct Model {
    pub gain: f32,
    pub offset: f32,
}

// "previous, own and next; previous and own; own and next"
// Kept: (a) "Form by location" names it, a trial with three variants.
#[derive(Clone, Copy)]
pub enum Trial {
    All,
    PreviousOwn,
    OwnNext,
}

// "nothing, or a model with the trial it came from"
// Kept: (a) "Form by location" asks for it in place of an Option.
#[derive(Clone, Copy)]
pub enum Found {
    At(Model, Trial),
    Nothing,
}

// A gain as it is stored: in 4096ths.
#[derive(Clone, Copy)]
pub struct Gain(pub i16);

// An offset as it is stored: in 64ths.
#[derive(Clone, Copy)]
pub struct Offset(pub i16);

// "A scene value is either lifted or left raw, one float each way"
// Kept: (a) "Form by location" names it; a Result would make a raw value a failure.
#[derive(Clone, Copy)]
pub enum Scene {
    Lifted(f32),
    Raw(f32),
}

// Why a call is refused. Each has its number in the table of "Domain", or among the new numbers of the requests.
#[derive(Clone, Copy)]
pub enum Refusal {
    // a width, a height or a plane's number
    Size = 1,
    // a ratio, or a mask's steps
    Ratio = 2,
    // a pitch
    Pitch = 3,
    // a slice's length
    Length = 4,
    // a number of a motion
    Movement = 5,
    // a time, or a setting of fit
    Setting = 6,
    // a number of pairs
    Pairs = 7,
    // a record of a parcel that is cut short
    Cut = 9,
    // the kinds of a parcel's records
    Kind = 10,
    // a parcel's head, or the length of a payload
    Payload = 11,
    // a pair or a layer whose turn it isn't
    Turn = 12,
}

impl From<Refusal> for u64 {
    ghost from_gives = { λ refusal number. number ≡ number_of refusal };

    fn from(refusal: Refusal) -> u64 {
        refusal as u64
    }
}

// What a call answers that tells sizes: its answer as one number, and the sizes and the ratio, all 0 when refused.
// Kept: (a) it passes to C as it stands.
#[repr(C)]
#[derive(Clone, Copy)]
pub struct Sizes {
    pub word: u64,
    pub width: usize,
    pub height: usize,
    pub ratio: usize,
}

// A walk over a clip, as each of its calls gets it and answers it: luma's size and the ratio, the clip's number of
// pairs, how many of these were added, and how many layers were taken.
// Kept: (a) it passes to C as it stands.
#[repr(C)]
#[derive(Clone, Copy)]
pub struct Walk {
    pub width: usize,
    pub height: usize,
    pub ratio: usize,
    pub pairs: usize,
    pub added: usize,
    pub taken: usize,
}

// What a call of a walk answers: its answer as one number, and the walk.
// Kept: (a) it passes to C as it stands.
#[repr(C)]
#[derive(Clone, Copy)]
pub struct Walked {
    pub word: u64,
    pub walk: Walk,
}

// The Rust's tuples on the way to those answers.

// Six sums over moved samples p and the samples i in their place: of both, of squares and products, and how many lie
// far apart.
#[derive(Clone, Copy, Default)]
pub struct Sums {
    pub p: f32,
    pub i: f32,
    pub pp: f32,
    pub pi: f32,
    pub ii: f32,
    pub apart: f32,
}

// Means, variances and covariance of the sums, in `model`.
#[derive(Clone, Copy)]
pub struct Spread {
    pub mp: f32,
    pub mi: f32,
    pub vp: f32,
    pub vi: f32,
    pub cov: f32,
}

// A trial's model, its error on the own part, the trial, and its sixth total, in `window`.
#[derive(Clone, Copy)]
pub struct Best {
    pub model: Model,
    pub error: f32,
    pub trial: Trial,
    pub seen: f32,
}

// Two neighbouring entries of a row or column, and the share of the second, of `taps`.
#[derive(Clone, Copy)]
pub struct Taps {
    pub first: usize,
    pub second: usize,
    pub share: f32,
}

// How far a pixel moves in the first frame and in the second, across and down, of `steps`.
#[derive(Clone, Copy)]
pub struct Steps {
    pub fx: f32,
    pub fy: f32,
    pub bx: f32,
    pub by: f32,
}

// The total and the number of the lifted values of a ring, in `scene`.
#[derive(Clone, Copy)]
pub struct Ring {
    pub total: f32,
    pub count: f32,
}

// What render sees at a moved point: the scene, whether the layer is on there, and the raw sample.
#[derive(Clone, Copy)]
pub struct Moved {
    pub scene: Scene,
    pub on: bool,
    pub raw: f32,
}
