// The library for a host in C or Rust. `c/avr.h` has the same declarations for C. The host holds the image of a record,
// lends it for a tick and finds it advanced.
#![tactic(auto)]

ghost use Rattle.std.specs.Prelude.{◌≡◌, true, false, List, ◌↔◌};
ghost use Rattle.common.specs.Choice.{choose};
ghost use Rattle.sheet.specs.Settings.{Settings};
ghost use Rattle.record_starting.specs.Starting.{start_of};
ghost use Rattle.claim.specs.Claim.{Kept};
ghost use Rattle.hosting.specs.Hosting.{refused_image, is_accepted, image_tick_of, found_of};
ghost use Rattle.hosting.specs.Lists.{image_list_from, image_opening};
ghost use Rattle.ahead.specs.Looking.{is_horizon};
ghost use Rattle.hosting_ahead.specs.Outlooks.{given_back, image_ahead_of, image_after, image_ticks_run};
ghost use Rattle.boundary.specs.Starting.{started_image};

use hosting::{ImageTicked, Outputs};
use hosting_ahead::ImageOutlook;
use image::Image;
use image_input::Brought;

// The answer to a list: 0, or the number of the refusal and its slot, with the image of the record that the list gives; of the
// record of zeros where it is refused.
#[repr(C)]
#[derive(Clone, Copy)]
pub struct Started {
    pub number: u32,
    pub slot: u32,
    pub image: Image,
}

// Starts a regulator from a setting sheet of any length; the list is left as it was. The number is 0 exactly for a sheet within
// its ranges and its order of taps, and then the image is accepted.
#[unsafe(no_mangle)]
pub extern "C" fn avr_start(list: &[u32]) -> Started
    ensures reply { result ≡ started_image (start_of list.now) }
    ensures exactly { (result.number ≡ 0) ↔ Settings list.now }
    ensures lasting { result.number ≡ 0 → is_accepted result.image ≡ true }
{
    let answer = record_starting::start(list);
    Started {
        number: sheet::number(&answer),
        slot: sheet::slot(&answer),
        image: image_writing::image_of(record_starting::record_of(answer)),
    }
}

// One tick of the lent image: 0, or the refusal 4, with the image left as it was and outputs all 0. The clauses are
// `image_tick`'s, of what the host finds.
#[unsafe(no_mangle)]
pub extern "C" fn avr_tick(image: &mut Image, brought: &Brought, outputs: &mut Outputs) -> u32
    ensures each { found_of result outputs.new image.new ≡ image_tick_of image.old brought.now }
    ensures refusal { result ≡ choose (is_accepted image.old) 0 4 }
    ensures left { is_accepted image.old ≡ false
        → found_of result outputs.new image.new ≡ refused_image image.old }
    ensures lasting { is_accepted image.new ≡ is_accepted image.old }
    ensures lists { (later : List Brought) → Kept (image_opening image.old)
        (image_list_from image.old brought.now (found_of result outputs.new image.new) later) }
{
    let x = hosting::image_tick(*image, *brought);
    *image = x.next;
    *outputs = x.outputs;
    x.refusal
}

// The same of an image by value. It calls what `image_tick` calls, so that the compiler puts `image_tick` into its one caller.
#[unsafe(no_mangle)]
pub extern "C" fn avr_tick_by_value(image: Image, brought: Brought) -> ImageTicked
    ensures each { result ≡ image_tick_of image brought }
    ensures refusal { result.refusal ≡ choose (is_accepted image) 0 4 }
    ensures left { is_accepted image ≡ false → result ≡ refused_image image }
    ensures lasting { is_accepted result.next ≡ is_accepted image }
    ensures lists { (later : List Brought) → Kept (image_opening image) (image_list_from image brought result later) }
{
    let settings = image.settings;
    let before = image_reading::numbers_in(image);
    let x = hosting::advance(&settings, before, brought);
    hosting::with_settings(settings, x)
}

// On which of up to `horizon` ticks, each of which brings the same, the first command would begin, and what stands there. The clauses are
// `image_ahead`'s.
#[unsafe(no_mangle)]
pub extern "C" fn avr_ahead(image: Image, brought: Brought, horizon: u32) -> ImageOutlook
    ensures each { result ≡ image_ahead_of image brought horizon }
    ensures refusal { result.refusal ≡ choose (is_accepted image) (choose (is_horizon horizon) 0 6) 4 }
    ensures left { (result.refusal ≡ 0 → ⊥) → result ≡ given_back result.refusal image }
    ensures lasting { is_accepted result.next ≡ is_accepted image }
    ensures calls { result.refusal ≡ 0 → result.next ≡ image_after image brought (image_ticks_run horizon result) }
{
    hosting_ahead::image_ahead(image, brought, horizon)
}
