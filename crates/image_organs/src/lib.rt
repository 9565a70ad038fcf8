// The seven organs in numbers, and back.
#![tactic(auto)]

ghost use Rattle.std.specs.Prelude.{◌≡◌};
ghost use Rattle.image_organs.specs.Places.{organ_numbers, organ_of, organs_of, are_marks};

use organ::Organ;

// The marks, 0 or 1, and the counts: two arrays, as the C interface's image has them.
#[derive(Clone, Copy)]
pub struct OrganNumbers {
    pub marks: [u32; 7],
    pub counts: [u32; 7],
}

pub fn organ_numbers(organs: [Organ; 7]) -> OrganNumbers
    ensures { result ≡ organ_numbers organs }
{
    let mut marks = [0u32; 7];
    let mut counts = [0u32; 7];
    for i in 0..7 {
        marks[i] = organs[i].marked as u32;
        counts[i] = organs[i].count;
    }
    OrganNumbers { marks, counts }
}

#[tactic(auto, unfolding(crate::specs::Places::organ_of))]
fn organ_of(mark: u32, count: u32) -> Organ
    ensures { result ≡ organ_of mark count }
{
    Organ {
        marked: mark == 1,
        count,
    }
}

pub fn organs_of(marks: [u32; 7], counts: [u32; 7]) -> [Organ; 7]
    ensures { result ≡ organs_of marks counts }
{
    let cleared = Organ {
        marked: false,
        count: 0,
    };
    let mut organs = [cleared; 7];
    for i in 0..7 {
        organs[i] = organ_of(marks[i], counts[i]);
    }
    organs
}

// Whether each number is a mark: 0 or 1.
pub fn are_marks(marks: [u32; 7]) -> bool
    ensures { result ≡ are_marks marks }
{
    marks.iter().all(|mark| *mark <= 1)
}
