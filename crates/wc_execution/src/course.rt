ghost use Rattle.std.specs.Prelude.{◌≡◌, ◌<◌, ◌≤◌, ◌^◌, true, false, ◌+◌, ◌-◌};
ghost use Rattle.wc_text_flat.specs.FlatMeaning.{Ended as ended, Skips as skips};
ghost use Rattle.wc_execution.specs.Courses.{course_view, line_at};

/// Where a body goes on after a line.
#[derive(Clone, Copy)]
pub enum Flow {
    /// On, to the next line.
    On,
    /// On, but n lines are passed over.
    Skips(u32),
    /// Nowhere: it has ended.
    Ended,
}

/// What a line leaves.
#[derive(Clone, Copy)]
pub struct LineResult {
    /// The result, whatever it was if there is none.
    pub current: i32,
    /// Where the body goes on.
    pub course: Flow,
}

/// On to the next line, with this result.
#[inline(always)]
pub(crate) fn on(current: i32) -> LineResult
    ensures current { result.current ≡ current }
    ensures course { course_view result.course ≡ skips 0 }
{
    LineResult {
        current,
        course: Flow::On,
    }
}

/// On, if some lines are passed over or none.
#[inline(always)]
pub(crate) fn over(current: i32, passes: bool, skip: u32) -> LineResult
    ensures current { result.current ≡ current }
    ensures course { course_view result.course
        ≡ elim passes [ true ↦ skips skip | false ↦ skips 0 ] }
{
    LineResult {
        current,
        course: if passes { Flow::Skips(skip) } else { Flow::On },
    }
}

/// Out of the body, or on to the next line.
#[inline(always)]
pub(crate) fn out(current: i32, leaves: bool) -> LineResult
    ensures current { result.current ≡ current }
    ensures course { course_view result.course ≡ elim leaves [ true ↦ ended | false ↦ skips 0 ] }
{
    LineResult {
        current,
        course: if leaves { Flow::Ended } else { Flow::On },
    }
}

/// The line at which a body of `end` lines goes on, if the next one is `at`.
#[inline(always)]
pub fn next_line(course: Flow, at: usize, end: usize) -> usize
    requires { at < 2 ^ 63 }
    ensures line { result ≡ line_at (course_view course) at end }
    ensures ahead { at ≤ end → at ≤ result }
{
    match course {
        Flow::On => at,
        Flow::Skips(skip) => at + skip as usize,
        Flow::Ended => end,
    }
}

/// How far a body is executed: the number of steps counted, and from where to where lines were executed one after
/// another since, each a step. So a line that goes on to the next one counts nothing.
#[derive(Clone, Copy)]
pub struct Count {
    /// The steps before.
    pub steps: u32,
    /// The first line that is not counted.
    pub from: usize,
    /// The line at which the body goes on.
    pub at: usize,
}

/// The steps with the lines from one place up to another.
#[inline(always)]
pub fn with_lines(steps: u32, from: usize, at: usize) -> u32
    requires order { from ≤ at }
    requires fits { steps + (at - from) < 2 ^ 32 }
    ensures { result ≡ steps + (at - from) }
{
    steps + (at - from) as u32
}

/// The count after a line that takes this course, if a body of `end` lines would go on at `at`.
#[inline(always)]
pub fn count_on(steps: u32, from: usize, at: usize, course: Flow, end: usize) -> Count
    requires order { from ≤ at }
    requires fits { steps + (at - from) < 2 ^ 32 }
    requires near { at < 2 ^ 63 }
    ensures line { result.at ≡ line_at (course_view course) at end }
    ensures steps { result.steps + (result.at - result.from) ≡ steps + (at - from) }
    ensures order { result.from ≤ result.at }
    ensures ahead { at ≤ end → at ≤ result.at }
{
    match course {
        Flow::On => Count { steps, from, at },
        _ => {
            let on = next_line(course, at, end);
            Count {
                steps: with_lines(steps, from, at),
                from: on,
                at: on,
            }
        }
    }
}
