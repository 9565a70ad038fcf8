// The look ahead from an image, by value. It goes tick by tick over `hosting::advance`, as the host's own ticks do.
#![tactic(auto)]

ghost use Rattle.std.specs.Prelude.{◌≡◌};
ghost use Rattle.common.specs.Choice.{choose};
ghost use Rattle.ahead.specs.Looking.{is_horizon, number_of};
ghost use Rattle.ahead_looking.specs.declared.Glance.{Glance};
ghost use Rattle.image.specs.Images.{image_with};
ghost use Rattle.hosting.specs.Hosting.{is_accepted, image_tick_of, besides_of};
ghost use Rattle.hosting_ahead.specs.Outlooks.{sight_of, in_numbers, image_answer_of, given_back, image_ahead_of, image_after, image_ticks_run};

use ahead::{Outlook, Refusal};
use ahead_looking::{Glance, Repeated};
use hosting::Outputs;
use image::{Image, Numbers};
use image_input::Brought;
use showing::FIELDS;
use slots::SLOTS;
use ways::Direction;

// What a look ahead answers: 0, or the refusal 4 or 6; the tick, counted from 1, on which the first command begins, and the number of
// its way; else 0 and 0. The outputs and the image are those after that tick, or after the last one of the horizon.
// It stays in numbers: no enum may cross the C interface.
#[repr(C)]
#[derive(Clone, Copy)]
pub struct ImageOutlook {
    pub refusal: u32,
    pub tick: u32,
    pub way: u32,
    pub outputs: Outputs,
    pub next: Image,
}

// The tick of an image.
#[derive(Clone, Copy)]
struct OnImage {
    settings: [u32; SLOTS],
    brought: Brought,
}

impl Repeated<Numbers> for OnImage {
    ghost tick = { λ t n. sight_of (besides_of (image_tick_of (image_with t.settings n) t.brought)) };

    fn tick(&self, before: Numbers) -> Glance<Numbers> {
        let ticked = hosting::advance(&self.settings, before, self.brought);
        let outputs = ticked.outputs.fields;
        Glance {
            outputs,
            next: ticked.numbers,
        }
    }
}

// The answer in numbers.
fn in_numbers(settings: [u32; SLOTS], o: Outlook<Numbers>) -> ImageOutlook
    ensures { result ≡ in_numbers settings o }
{
    let (tick, way) = match o.begun {
        Some(begun) => (begun.tick, Some(begun.direction)),
        None => (0, None),
    };
    let fields = o.outputs;
    ImageOutlook {
        refusal: 0,
        tick,
        way: coding_ways::way_number(way),
        outputs: Outputs { fields },
        next: image_writing::image_with(settings, o.next),
    }
}

// A refusal: tick 0, no way, outputs all 0, the image as given.
fn given_back(refusal: Refusal, m: Image) -> ImageOutlook
    ensures { result ≡ given_back (number_of refusal) m }
{
    ImageOutlook {
        refusal: refusal.number(),
        tick: 0,
        way: 0,
        outputs: Outputs {
            fields: [0u32; FIELDS],
        },
        next: m,
    }
}

// The look, over the image's numbers: refused where a tick of it is refused, then by the horizon.
fn looked(m: Image, b: Brought, horizon: u32) -> Result<Outlook<Numbers>, Refusal>
    ensures { image_answer_of m result ≡ image_ahead_of m b horizon }
{
    let settings = m.settings;
    let numbers = image_reading::numbers_in(m);
    let tried = hosting::advance(&settings, numbers, b);
    if tried.refusal == 4 {
        return Err(Refusal::Record);
    }
    if !ahead_looking::is_horizon(horizon) {
        return Err(Refusal::Horizon);
    }
    let repeated = OnImage {
        settings,
        brought: b,
    };
    Ok(ahead_looking::look(&repeated, numbers, numbers.drive.kind == 0, horizon))
}

// The look ahead from an image: 4 where a tick of it is refused, then 6 by the horizon. It gives what the look from its record gives
// (`each`), and the image that so many ticks leave (`calls`).
pub fn image_ahead(m: Image, b: Brought, horizon: u32) -> ImageOutlook
    ensures each { result ≡ image_ahead_of m b horizon }
    ensures refusal { result.refusal ≡ choose (is_accepted m) (choose (is_horizon horizon) 0 6) 4 }
    ensures left { (result.refusal ≡ 0 → ⊥) → result ≡ given_back result.refusal m }
    ensures lasting { is_accepted result.next ≡ is_accepted m }
    ensures calls { result.refusal ≡ 0 → result.next ≡ image_after m b (image_ticks_run horizon result) }
{
    match looked(m, b, horizon) {
        Ok(o) => in_numbers(m.settings, o),
        Err(refusal) => given_back(refusal, m),
    }
}
