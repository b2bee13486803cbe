//! The progress of the first tasks, if no task after them has done anything.
ghost use Rattle.std.specs.Prelude.{◌≡◌, ◌<◌, ◌≤◌, ℕ, length, min, true, IfOk, OnOk};
ghost use Rattle.model.specs.State.{no_progress};
ghost use Rattle.machine.specs.StandsFor.{AreBlankFrom, progress_in};
ghost use Rattle.machine.specs.Fronts.{with_blanks};

use crate::progress::Progress;
use model::Memory;
use std::alloc::Global;

/// How many of so many first tasks are needed so that nothing is done after them, if nothing is done after
/// these.
fn tasks_of(progress: &[Progress; 32], most: usize) -> usize
    ensures few { result ≤ 32 }
    ensures blank { AreBlankFrom most progress.now → AreBlankFrom result progress.now }
{
    let most = most.min(32);
    for behind in 0..most {
        if !progress[most - 1 - behind].is_blank() {
            return most - behind;
        }
    }
    0
}

/// The progress of the first tasks after which nothing is done. There are so many at most, and no task after these has done anything.
/// `Memory` is returned only if a growth was refused.
pub(crate) fn front_of(
    alloc: Global,
    progress: &[Progress; 32],
    most: usize,
) -> Result<Vec<Progress>, Memory>
    ensures few { IfOk result (λ front. length front.items ≤ 32) }
    ensures front { IfOk result (λ front. AreBlankFrom most progress.now → with_blanks front.items ≡ progress.now) }
{
    let mut front = Vec::new(alloc);
    save_front(progress, most, &mut front)?;
    Ok(front)
}

/// Makes a front that of the first tasks as they are now, as `front_of` does, in the memory that it has, and more only if that is too
/// little. `Memory` is returned only if a growth was refused.
pub(crate) fn save_front(
    progress: &[Progress; 32],
    most: usize,
    front: &mut Vec<Progress>,
) -> Result<(), Memory>
    requires { length front.old.items ≤ 32 }
    ensures few { length front.new.items ≤ 32 }
    ensures front { OnOk result (AreBlankFrom most progress.now → with_blanks front.new.items ≡ progress.now) }
{
    let tasks = tasks_of(progress, most);
    front.clear();
    front.reserve_exact(tasks)?;
    front.extend_from_slice(&progress[..tasks])?;
    Ok(())
}

/// The tasks from the first of these two to before the second have done nothing then; the second counts as 32 if it is more.
fn clear_between(progress: &mut [Progress; 32], first: usize, end: usize)
    ensures cleared { (task : ℕ) → first ≤ task → task < min end 32 → progress_in progress.new task ≡ no_progress }
    ensures same { (task : ℕ) → end ≤ task → progress_in progress.new task ≡ progress_in progress.old task }
    ensures full { length progress.new ≡ 32 }
{
    for task in first..end.min(32) {
        progress[task] = Progress::new(0);
    }
}

/// Makes it that of these first tasks, with nothing done after them, if no task after so many has done anything.
pub(crate) fn fill_from(progress: &mut [Progress; 32], front: &[Progress], tasks: usize)
    requires { length front.now ≤ 32 }
    ensures { AreBlankFrom tasks progress.old → progress.new ≡ with_blanks front.now }
{
    clear_between(progress, front.len(), tasks);
    progress[..front.len()].copy_from_slice(front);
}

/// Whether each progress is the same as the other at its place.
fn are_same(progress: &[Progress; 32], other: &[Progress]) -> bool
    requires { length other.now ≤ 32 }
    ensures { result ≡ true → (task : ℕ) → task < length other.now → progress_in progress.now task ≡ progress_in other.now task }
{
    for task in 0..other.len() {
        if !progress[task].is_same(&other[task]) {
            return false;
        }
    }
    true
}

/// Whether that of the tasks between these two is blank; the second counts as 32 if it is more.
fn are_blank(progress: &[Progress; 32], first: usize, end: usize) -> bool
    ensures { result ≡ true → (task : ℕ) → first ≤ task → task < min end 32 → progress_in progress.now task ≡ no_progress }
{
    for task in first..end.min(32) {
        if !progress[task].is_blank() {
            return false;
        }
    }
    true
}

/// Whether each progress is the same as the other at its place, and blank if there is no other. There are so many tasks, and none
/// after them has done anything.
pub(crate) fn is_same_progress(progress: &[Progress; 32], other: &[Progress], tasks: usize) -> bool
    requires { length other.now ≤ 32 }
    ensures { result ≡ true → AreBlankFrom tasks progress.now → progress.now ≡ with_blanks other.now }
{
    are_same(progress, other) && are_blank(progress, other.len(), tasks)
}
