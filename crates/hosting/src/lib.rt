// One tick of an image, by value.
#![tactic(auto)]

ghost use Rattle.std.specs.Prelude.{◌≡◌, false, List};
ghost use Rattle.common.specs.Choice.{choose};
ghost use Rattle.claim.specs.Claim.{Kept};
ghost use Rattle.hosting.specs.Lists.{image_list_from, image_opening};
ghost use Rattle.hosting.specs.Hosting.{advanced_of, refused_image, is_accepted, image_tick_of, besides_of, whole_of};
ghost use Rattle.record.specs.Whole.{regulator_of};
ghost use Rattle.image.specs.Images.{image_with};

use image::{Image, Numbers};
use image_input::Brought;
use record::State;
use showing::FIELDS;
use slots::SLOTS;

// The outputs, by field.
#[repr(C)]
#[derive(Clone, Copy)]
pub struct Outputs {
    pub fields: [u32; FIELDS],
}

// What a tick answers, 0 or the refusal 4, and the next image.
#[repr(C)]
#[derive(Clone, Copy)]
pub struct ImageTicked {
    pub refusal: u32,
    pub outputs: Outputs,
    pub next: Image,
}

// The same but for the settings. The refusal is a number here too: that of numbers which are no state's is this crate's own, and not
// one of `rules::Refused`.
#[derive(Clone, Copy)]
pub struct Advanced {
    pub refusal: u32,
    pub outputs: Outputs,
    pub numbers: Numbers,
}

// The tick of a state, and the numbers of the next one.
fn run(s: &[u32; SLOTS], m: State, b: Brought) -> Advanced
    ensures { result ≡ besides_of (advanced_of (regulator_of s.now m) b) }
{
    let x = regulator::step(s, m, b.into());
    let fields = rules::outputs_in(x.reply);
    let after = x.next;
    Advanced {
        refusal: rules::refusal_in(x.reply),
        outputs: Outputs { fields },
        numbers: image_writing::numbers_of(after),
    }
}

// Numbers that are no state's are refused as a record outside its limits is: 4, outputs all 0, the numbers left as they were.
pub fn advance(s: &[u32; SLOTS], n: Numbers, b: Brought) -> Advanced
    ensures { result ≡ besides_of (image_tick_of (image_with s.now n) b) }
{
    if image_reading::is_state(n) {
        run(s, image_reading::state_of(n), b)
    } else {
        Advanced {
            refusal: 4,
            outputs: Outputs {
                fields: [0u32; FIELDS],
            },
            numbers: n,
        }
    }
}

// The whole of it, with the settings put back.
pub fn with_settings(settings: [u32; SLOTS], x: Advanced) -> ImageTicked
    ensures { result ≡ whole_of settings x }
{
    ImageTicked {
        refusal: x.refusal,
        outputs: x.outputs,
        next: image_writing::image_with(settings, x.numbers),
    }
}

// The tick of an image. One that is no record's is refused as a record outside its limits is: 4, outputs all 0, the image left as it
// was.
pub fn image_tick(m: Image, b: Brought) -> ImageTicked
    ensures each { result ≡ image_tick_of m b }
    ensures refusal { result.refusal ≡ choose (is_accepted m) 0 4 }
    ensures left { is_accepted m ≡ false → result ≡ refused_image m }
    ensures lasting { is_accepted result.next ≡ is_accepted m }
    ensures lists { (later : List Brought) → Kept (image_opening m) (image_list_from m b result later) }
{
    let settings = m.settings;
    let x = advance(&settings, image_reading::numbers_in(m), b);
    with_settings(settings, x)
}
