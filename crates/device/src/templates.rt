ghost use Rattle.std.specs.Prelude.{◌≡◌};
ghost use Rattle.machine.specs.Enrollment.{staying};
ghost use Rattle.machine.specs.Searches.{without};
ghost use Rattle.memory.specs.Held.{add_after, remove_after};

use codes::EnrollFlag;
use machine::Enrollment;
use memory::Memory;

/// Takes the template at a place out. It stays a call of its own, so that a walk over places at which none is taken
/// out is short.
#[inline(never)]
fn take_out<S: Memory>(memory: &mut S, place: usize)
    ensures after { S.Memory.held memory.new ≡ remove_after (S.Memory.held memory.old) place }
    ensures room_same { S.Memory.room memory.new ≡ S.Memory.room memory.old }
{
    memory.remove(place);
}

/// Takes all templates of the ID out, the oldest first.
pub fn delete_all_of<S: Memory>(memory: &mut S, id: u16)
    ensures after { S.Memory.held memory.new ≡ without id (S.Memory.held memory.old) }
    ensures room_same { S.Memory.room memory.new ≡ S.Memory.room memory.old }
{
    let mut place = 0;
    // The proof says by `turn` how many templates were looked at.
    for turn in 0..memory.count() {
        if memory.id_at(place) == Some(id) {
            take_out(memory, place);
        } else {
            place += 1;
        }
    }
}

/// Takes out what an enrolment replaces.
fn make_way<S: Memory>(memory: &mut S, enrollment: Enrollment)
    ensures after { S.Memory.held memory.new ≡ staying
        enrollment.flag enrollment.id (S.Memory.held memory.old) }
    ensures room_same { S.Memory.room memory.new ≡ S.Memory.room memory.old }
{
    if enrollment.flag == EnrollFlag::Replace {
        delete_all_of(memory, enrollment.id);
    }
}

/// Enrols one template. That there is room for it was tested when the request came.
pub fn enroll_one<S: Memory>(memory: &mut S, enrollment: Enrollment, template: &[u8])
    ensures after { S.Memory.held memory.new ≡ add_after
        S.Memory.T
        (S.Memory.room memory.old)
        (staying enrollment.flag enrollment.id (S.Memory.held memory.old))
        enrollment.id template.now }
    ensures room_same { S.Memory.room memory.new ≡ S.Memory.room memory.old }
{
    make_way(memory, enrollment);
    let _ = memory.add(enrollment.id, template);
}

/// Enrols two templates, in this order. That there is room for them was tested when the request came.
pub fn enroll_two<S: Memory>(memory: &mut S, enrollment: Enrollment, one: &[u8], two: &[u8])
    ensures after { S.Memory.held memory.new ≡ add_after
        S.Memory.T
        (S.Memory.room memory.old)
        (add_after
        S.Memory.T
        (S.Memory.room memory.old)
        (staying enrollment.flag enrollment.id (S.Memory.held memory.old))
        enrollment.id one.now)
        enrollment.id two.now }
    ensures room_same { S.Memory.room memory.new ≡ S.Memory.room memory.old }
{
    enroll_one(memory, enrollment, one);
    let _ = memory.add(enrollment.id, two);
}
