ghost use Rattle.std.specs.Prelude.{◌≡◌, ℕ, ◌^◌, ◌<◌, false, not, length, count_by, ◌==◌, nat_eq, slice_index_or};
ghost use Rattle.search.specs.Ids.{count_of, is_at, lowest_free, place_of};
ghost use Rattle.search.specs.Laws.{FindsNumbered, IsLowestFree};

use memory::Memory;

/// No memory holds more templates.
pub(crate) const MOST_TEMPLATES: usize = 500;

/// 0, which is no ID, and one ID more than there can be templates, so that one of them is free.
const LOW_IDS: usize = MOST_TEMPLATES + 2;

/// Whether there is a template at the place, and it has the ID.
fn is_at<S: Memory>(memory: &S, place: usize, id: u16) -> bool
    ensures { result ≡ is_at id (S.Memory.held memory.now) place }
{
    memory.id_at(place) == Some(id)
}

/// How many of the IDs are this one.
pub(crate) fn count_in(ids: &[u16], id: u16) -> u32
    requires { length ids.now < 2 ^ 32 }
    ensures { result ≡ count_by (λ other. nat_eq other id) ids.now }
{
    ids.iter().filter(|other| **other == id).count() as u32
}

/// How many templates the ID has.
pub fn count_of<S: Memory>(memory: &S, id: u16) -> u32
    ensures { result ≡ count_of id (S.Memory.held memory.now) }
{
    (0..memory.count())
        .filter(|at| is_at(memory, *at, id))
        .count() as u32
}

/// Which of the low IDs have some template.
fn taken_ids<S: Memory>(memory: &S) -> [bool; LOW_IDS]
    ensures { (id : ℕ) → id < 502 →
        slice_index_or result id false ≡ not (count_of id (S.Memory.held memory.now) == 0) }
{
    let mut taken = [false; LOW_IDS];
    for place in 0..memory.count() {
        if let Some(id) = memory.id_at(place) {
            let id = usize::from(id);
            if id < LOW_IDS {
                taken[id] = true;
            }
        }
    }
    taken
}

/// The lowest ID without any template.
pub fn lowest_free_id<S: Memory>(memory: &S) -> u16
    ensures value { result ≡ lowest_free (S.Memory.held memory.now) }
    ensures lowest { IsLowestFree (S.Memory.held memory.now) result }
{
    let taken = taken_ids(memory);
    // Some low ID is free, so the taken ones from 1 on end within the marks.
    1 + taken[1..].iter().take_while(|taken| **taken).count() as u16
}

/// The place of the ID's template of this number, counted from 0.
pub fn place_of<S: Memory>(memory: &S, id: u16, number: u32) -> Option<usize>
    ensures value { result ≡ place_of id number (S.Memory.held memory.now) }
    ensures finds { FindsNumbered (S.Memory.held memory.now) id number result }
{
    (0..memory.count())
        .filter(|place| is_at(memory, *place, id))
        .nth(number as usize)
}
