// Workers and poke jobs are hired and dismissed.
ghost use Rattle.std.specs.Prelude.{◌≡◌, ◌+◌, ◌≤◌, ◌++◌, [], vec_len, vec_capacity};
ghost use Rattle.std.specs.List.{AllByRecursion};
ghost use Rattle.rv_poke.specs.Bells.{unasked};
ghost use Rattle.rv_room.specs.Seats.{id_of, opened_of, view_of, AllNew, AllOf};
ghost use Rattle.rv_room.specs.Views.{newcomer};
ghost use Rattle.rv_workers.specs.Hiring.{reversed};

use crate::poke_job::PokeJob;
use crate::worker::Worker;
use rv_accounts::Accounts;
use rv_keeper::Keeper;
use rv_net::{Listen, PokeListen};
use rv_poke::Bell;
use rv_room::{Room, Seats};
use rv_serve::Gate;
use std::alloc::Global;
use std::sync::Wait;

/// Hires a worker for each listener, each with a seat and a gate of its own. The worker of the last listener comes first. It takes no
/// memory.
pub(crate) fn hire_all<'x, R: Wait, K: Keeper, L: Listen, G: Gate>(
    alloc: Global,
    runtime: &'x R,
    room: &'x Room<K>,
    accounts: &'x Accounts,
    seats: &mut Seats<K>,
    listeners: &mut Vec<L>,
    gates: &mut Vec<G>,
    workers: &mut Vec<Worker<'x, R, K, L, G>>,
)
    requires new { AllNew (id_of room.now) (opened_of room.now) seats.old.list.items }
    requires enough { vec_len listeners.old ≤ vec_len seats.old.list }
    requires gated { vec_len gates.old ≡ vec_len listeners.old }
    requires fits { (workers.old.items ≡ []) × (vec_len listeners.old ≤ vec_capacity workers.old) }
    ensures listeners { (listeners.new.items ≡ []) × (vec_capacity listeners.new ≡ vec_capacity listeners.old) }
    ensures seats { (vec_len seats.old.list ≡ vec_len seats.new.list + vec_len listeners.old) × (vec_capacity seats.new.list ≡ vec_capacity seats.old.list) }
    ensures left { AllNew (id_of room.now) (opened_of room.now) seats.new.list.items }
    ensures hired { listeners.old.items ≡ reversed (λ worker. worker.listener) workers.new.items }
    ensures each { AllByRecursion (λ worker. (worker.turns.room.now ≡ room.now) × (worker.accounts.now ≡ accounts.now) × (view_of worker.turns.seat ≡ newcomer 1 (opened_of room.now))) workers.new.items }
{
    while let Some(listener) = listeners.pop() {
        let Some(seat) = seats.take() else {
            unreachable!()
        };
        let Some(gate) = gates.pop() else {
            unreachable!()
        };
        workers.push_reserved(Worker::new(alloc, runtime, room, accounts, seat, listener, gate));
    }
}

/// Hires a poke job for each listener of links, each with a seat and a bell of its own. The job of the last listener comes first. It takes no
/// memory.
pub(crate) fn hire_pokes<'x, R: Wait, K: Keeper, P: PokeListen, B: Bell + Drop>(
    alloc: Global,
    runtime: &'x R,
    room: &'x Room<K>,
    accounts: &'x Accounts,
    seats: &mut Seats<K>,
    listeners: &mut Vec<P>,
    bells: &mut Vec<B>,
    jobs: &mut Vec<PokeJob<'x, R, K, P, B>>,
)
    requires new { AllNew (id_of room.now) (opened_of room.now) seats.old.list.items }
    requires enough { vec_len seats.old.list ≡ vec_len listeners.old }
    requires belled { vec_len bells.old ≡ vec_len listeners.old }
    requires unasked { AllByRecursion (λ bell. B.state bell ≡ unasked) bells.old.items }
    requires fits { (jobs.old.items ≡ []) × (vec_len listeners.old ≤ vec_capacity jobs.old) }
    ensures listeners { (listeners.new.items ≡ []) × (vec_capacity listeners.new ≡ vec_capacity listeners.old) }
    ensures seats { (seats.new.list.items ≡ []) × (vec_capacity seats.new.list ≡ vec_capacity seats.old.list) }
    ensures hired { listeners.old.items ≡ reversed (λ job. job.listener) jobs.new.items }
    ensures each { AllByRecursion (λ job. (job.turns.room.now ≡ room.now) × (job.accounts.now ≡ accounts.now) × (view_of job.turns.seat ≡ newcomer 1 (opened_of room.now)) × (B.state job.bell ≡ unasked)) jobs.new.items }
{
    while let Some(listener) = listeners.pop() {
        let Some(seat) = seats.take() else {
            unreachable!()
        };
        let Some(bell) = bells.pop() else {
            unreachable!()
        };
        jobs.push_reserved(PokeJob::new(alloc, runtime, room, accounts, seat, listener, bell));
    }
}

/// Takes seats and listeners back from workers: those of the last worker come first. It takes no memory.
pub(crate) fn dismiss_all<'x, R: Wait, K: Keeper, L: Listen, G: Gate>(
    room: &'x Room<K>,
    mut workers: Vec<Worker<'x, R, K, L, G>>,
    seats: &mut Seats<K>,
    listeners: &mut Vec<L>,
)
    requires room { AllByRecursion (λ worker. worker.turns.room.now ≡ room.now) workers.items }
    requires seats { (seats.old.list.items ≡ []) × (vec_len workers ≤ vec_capacity seats.old.list) }
    requires listeners { (listeners.old.items ≡ []) × (vec_len workers ≤ vec_capacity listeners.old) }
    ensures seats { seats.new.list.items ≡ reversed (λ worker. worker.turns.seat) workers.entry.items }
    ensures capacity { vec_capacity seats.new.list ≡ vec_capacity seats.old.list }
    ensures of { AllOf (id_of room.now) seats.new.list.items }
    ensures listeners { listeners.new.items ≡ reversed (λ worker. worker.listener) workers.entry.items }
{
    while let Some(worker) = workers.pop() {
        let (seat, listener) = worker.dismiss();
        seats.give(seat);
        listeners.push_reserved(listener);
    }
    workers.destroy_empty();
}

/// Takes seats and listeners back from poke jobs, the seats after those that are back already. It takes no memory.
pub(crate) fn dismiss_pokes<'x, R: Wait, K: Keeper, P: PokeListen, B: Bell + Drop>(
    room: &'x Room<K>,
    mut jobs: Vec<PokeJob<'x, R, K, P, B>>,
    seats: &mut Seats<K>,
    listeners: &mut Vec<P>,
)
    requires room { AllByRecursion (λ job. job.turns.room.now ≡ room.now) jobs.items }
    requires of { AllOf (id_of room.now) seats.old.list.items }
    requires seats { vec_len seats.old.list + vec_len jobs ≤ vec_capacity seats.old.list }
    requires listeners { (listeners.old.items ≡ []) × (vec_len jobs ≤ vec_capacity listeners.old) }
    ensures seats { seats.new.list.items ≡ seats.old.list.items ++ reversed (λ job. job.turns.seat) jobs.entry.items }
    ensures of { AllOf (id_of room.now) seats.new.list.items }
    ensures listeners { listeners.new.items ≡ reversed (λ job. job.listener) jobs.entry.items }
{
    while let Some(job) = jobs.pop() {
        let (seat, listener) = job.dismiss();
        seats.give(seat);
        listeners.push_reserved(listener);
    }
    jobs.destroy_empty();
}
