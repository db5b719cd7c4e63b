//! Jobs that threads do side by side.
ghost use Rattle.std.specs.Prelude.{◌≡◌, ◌≤◌, [], length, All, IfOk, IfErr, IsSome, IsSomeAnd, Some, None, vec_capacity};
ghost use Rattle.std.specs.List.{AllZip};

use std::alloc::Global;
use std::thread;
use std::thread::Threads;

// A job that is to be done; and then what it came to.
struct Job<A, B> {
    todo: Option<A>,
    done: Option<B>,
}

impl<A: Drop, B> Job<A, B> {
    // Does the job, if it is still to be done.
    fn run<F: Fn(A) -> B>(&mut self, work: &F)
        requires undone { self.old.done ≡ None }
        requires callable { F.IsAlwaysCallable work.now }
        ensures { (given : _) → self.old.todo ≡ Some given
            → IsSomeAnd self.new.done (F.post work.now given) }
    {
        let Some(given) = self.todo.take() else {
            return;
        };
        match self.done.replace(work(given)) {
            None => {}
            Some(_) => unreachable!(),
        }
    }
}

/// Calls `work` with each of some values, each in a thread of its own, or in the caller's if no thread starts. The results stand in the order
/// of the values. All memory of this function is taken first: if it is refused, `work` is not called, and the values come back.
pub(crate) fn side_by_side<R: Threads + Sync, A: Send + Drop, B: Send, F: Fn(A) -> B + Sync>(
    rt: &R,
    alloc: Global,
    given: Vec<A>,
    work: &F,
) -> Result<Vec<B>, Vec<A>>
    requires { F.IsAlwaysCallable work.now }
    ensures each { IfOk result (λ done. AllZip (F.post work.now) given.items done.items) }
    ensures refused { IfErr result (λ back. back.items ≡ given.items) }
{
    let Ok(results) = Vec::with_capacity(alloc, given.len()) else {
        return Err(given);
    };
    let Ok(jobs) = Vec::with_capacity(alloc, given.len()) else {
        results.destroy_empty();
        return Err(given);
    };
    let jobs = each_done(rt, jobs_of(jobs, given), work);
    Ok(results_of(jobs, results))
}

// A job for each value.
fn jobs_of<A: Drop, B>(jobs: Vec<Job<A, B>>, given: Vec<A>) -> Vec<Job<A, B>>
    requires empty { jobs.items ≡ [] }
    requires room { length given.items ≤ vec_capacity jobs }
    ensures { AllZip (λ given job. (job.todo ≡ Some given) × (job.done ≡ None))
        given.items result.items }
{
    let mut jobs = jobs;
    for one in given {
        jobs.push_reserved(Job {
            todo: Some(one),
            done: None,
        });
    }
    jobs
}

// Does each job, all at once.
fn each_done<R: Threads + Sync, A: Send + Drop, B: Send, F: Fn(A) -> B + Sync>(
    rt: &R,
    jobs: Vec<Job<A, B>>,
    work: &F,
) -> Vec<Job<A, B>>
    requires callable { F.IsAlwaysCallable work.now }
    requires undone { All (λ job. job.done ≡ None) jobs.items }
    ensures { AllZip (λ before after. (given : _) → before.todo ≡ Some given
        → IsSomeAnd after.done (F.post work.now given)) jobs.items result.items }
{
    let mut jobs = jobs;
    if jobs.is_empty() {
        return jobs;
    }
    let count = jobs.len();
    let run = |_i: usize, job: &mut Job<A, B>|
        requires { (job.now.done ≡ None) × F.IsAlwaysCallable work.now }
        ensures { (given : _) → job.entry.now.todo ≡ Some given
            → IsSomeAnd job.exit.now.done (F.post work.entry.now given) }
    { job.run(work) };
    thread::for_each_mut(rt, jobs.as_mut_slice(), count, &run);
    jobs
}

// What the jobs came to, in their order.
fn results_of<A: Drop, B>(jobs: Vec<Job<A, B>>, results: Vec<B>) -> Vec<B>
    requires empty { results.items ≡ [] }
    requires room { length jobs.items ≤ vec_capacity results }
    requires done { All (λ job. IsSome job.done) jobs.items }
    ensures { AllZip (λ job result. job.done ≡ Some result) jobs.items result.items }
{
    let mut jobs = jobs;
    let mut results = results;
    while !jobs.is_empty() {
        let Job { todo, done } = jobs.remove(0);
        drop(todo);
        match done {
            Some(result) => results.push_reserved(result),
            None => unreachable!(),
        }
    }
    jobs.destroy_empty();
    results
}
