// Listeners are served side by side.
ghost use Rattle.std.specs.Prelude.{◌≡◌, ◌+◌, ◌<◌, ◌≤◌, ◌^◌, [], All, map, None, vec_len, vec_capacity, IfOk, MatchResult};
ghost use Rattle.std.specs.List.{AllByRecursion};
ghost use Rattle.rv_poke.specs.Bells.{unasked};
ghost use Rattle.rv_room.specs.Seats.{id_of, opened_of, view_of, AllNew, AllOf};
ghost use Rattle.rv_room.specs.Views.{newcomer};
ghost use Rattle.rv_workers.specs.Jobs.{EachWorked};
ghost use Rattle.rv_workers.specs.Serving.{ServesAtDesk, ServesInRoom};

use crate::crew::Crew;
use crate::hiring::{dismiss_all, dismiss_pokes, hire_all, hire_pokes};
use crate::job::Job;
use crate::poke_job::PokeJob;
use crate::running::run_all;
use crate::worker::Worker;
use rv_accounts::Accounts;
use rv_base::Memory;
use rv_desk::Desk;
use rv_keeper::Keeper;
use rv_net::{Listen, PokeListen};
use rv_poke::{Bell, PokeLink};
use rv_room::{Room, Seats};
use rv_serve::Gate;
use std::alloc::Global;
use std::sync::Wait;

/// What comes of serving listeners: whether they were served, and the desk and the listeners, which are back.
pub struct Returned<K: Keeper, L, P> {
    /// They were served; or memory was refused before any worker began.
    pub served: Result<(), Memory>,
    /// The desk.
    pub desk: Desk<K>,
    /// The listeners of connections, in order.
    pub listeners: Vec<L>,
    /// The listeners of links, in order.
    pub pokes: Vec<P>,
}

// What is made before anything begins: gates, bells, and the space for workers and poke jobs.
struct Staff<'x, R: Wait, K: Keeper, L: Listen, P: PokeListen, G: Gate, B: Bell> {
    gates: Vec<G>,
    bells: Vec<B>,
    workers: Vec<Worker<'x, R, K, L, G>>,
    jobs: Vec<PokeJob<'x, R, K, P, B>>,
}

// The gates of so many workers, that of the first worker last.
fn gates_of<C: Crew>(alloc: Global, crew: &mut C, count: u32) -> Result<Vec<C::Gate>, Memory>
    ensures { IfOk result (λ gates. vec_len gates ≡ count) }
{
    let mut gates = Vec::with_capacity(alloc, count as usize)?;
    for taken in 0..count {
        gates.push_reserved(crew.gate(count - taken)?);
    }
    Ok(gates)
}

// The bells of so many poke jobs, which are over once so many workers have left.
fn bells_of<C: Crew>(
    alloc: Global,
    crew: &mut C,
    count: u32,
    workers: u32,
) -> Result<Vec<C::Bell>, Memory>
    ensures { IfOk result (λ bells. (vec_len bells ≡ count) × AllByRecursion (λ bell. C.Bell.state bell ≡ unasked) bells.items) }
{
    let mut bells = Vec::with_capacity(alloc, count as usize)?;
    for _ in 0..count {
        bells.push_reserved(crew.bell(workers)?);
    }
    Ok(bells)
}

// All that is made before so many listeners are served. The bells come before the gates.
fn staff_of<'x, R: Wait, K: Keeper, L: Listen, P: PokeListen, C: Crew>(
    alloc: Global,
    crew: &mut C,
    listeners: u32,
    pokes: u32,
) -> Result<Staff<'x, R, K, L, P, C::Gate, C::Bell>, Memory>
    ensures gates { IfOk result (λ staff. vec_len staff.gates ≡ listeners) }
    ensures bells { IfOk result (λ staff. (vec_len staff.bells ≡ pokes) × AllByRecursion (λ bell. C.Bell.state bell ≡ unasked) staff.bells.items) }
    ensures workers { IfOk result (λ staff. (staff.workers.items ≡ []) × (listeners ≤ vec_capacity staff.workers)) }
    ensures jobs { IfOk result (λ staff. (staff.jobs.items ≡ []) × (pokes ≤ vec_capacity staff.jobs)) }
{
    let bells = bells_of(alloc, crew, pokes, listeners)?;
    let gates = gates_of(alloc, crew, listeners)?;
    let Ok(workers) = Vec::with_capacity(alloc, listeners as usize) else {
        return Err(Memory);
    };
    let Ok(jobs) = Vec::with_capacity(alloc, pokes as usize) else {
        workers.destroy_empty();
        return Err(Memory);
    };
    Ok(Staff {
        gates,
        bells,
        workers,
        jobs,
    })
}

// Lets go of what was made.
fn dissolve<R: Wait, K: Keeper, L: Listen, P: PokeListen, G: Gate, B: Bell + Drop>(
    staff: Staff<'_, R, K, L, P, G, B>,
)
    requires { (staff.workers.items ≡ []) × (staff.jobs.items ≡ []) }
{
    let Staff {
        gates: _gates,
        bells: _bells,
        workers,
        jobs,
    } = staff;
    workers.destroy_empty();
    jobs.destroy_empty();
}

// Has workers and poke jobs work, and gives them back.
fn work_all<W: Job + Send, J: Job + Send, C: Crew>(
    crew: &C,
    mut workers: Vec<W>,
    mut jobs: Vec<J>,
) -> (Vec<W>, Vec<J>)
    requires workers { All W.needs workers.items }
    requires jobs { All J.needs jobs.items }
    ensures workers { EachWorked W.worked workers.items result.0.items }
    ensures jobs { EachWorked J.worked jobs.items result.1.items }
{
    run_all(crew, workers.as_mut_slice(), jobs.as_mut_slice());
    (workers, jobs)
}

// Serves listeners in a room, with its seats, and gives both back.
fn serve_in<'x, R: Wait + Sync, K: Keeper + Send, L: Listen + Send, P: PokeListen + Send, C: Crew>(
    alloc: Global,
    runtime: &'x R,
    crew: &C,
    accounts: &'x Accounts,
    room: &'x Room<K>,
    staff: Staff<'x, R, K, L, P, C::Gate, C::Bell>,
    mut seats: Seats<K>,
    mut listeners: Vec<L>,
    mut pokes: Vec<P>,
) -> (Seats<K>, Vec<L>, Vec<P>)
where
    L::In: Send,
    L::Out: Send,
    P::Link: PokeLink + Send,
    requires new { AllNew (id_of room.now) (opened_of room.now) seats.list.items }
    requires enough { vec_len seats.list ≡ vec_len listeners + vec_len pokes }
    requires gated { vec_len staff.gates ≡ vec_len listeners }
    requires belled { (vec_len staff.bells ≡ vec_len pokes) × AllByRecursion (λ bell. C.Bell.state bell ≡ unasked) staff.bells.items }
    requires workers { (staff.workers.items ≡ []) × (vec_len listeners ≤ vec_capacity staff.workers) }
    requires jobs { (staff.jobs.items ≡ []) × (vec_len pokes ≤ vec_capacity staff.jobs) }
    ensures seats { vec_len result.0.list ≡ vec_len seats.list }
    ensures of { AllOf (id_of room.now) result.0.list.items }
    ensures serves { ServesInRoom K.Keeper L.Listen L.In.Source L.Out.Sink P.PokeListen P.Link.PokeLink accounts.now (newcomer 1 (opened_of room.now)) listeners.items pokes.items (map view_of result.0.list.items) result.1.items result.2.items }
{
    let Staff {
        mut gates,
        mut bells,
        mut workers,
        mut jobs,
    } = staff;
    hire_all(
        alloc,
        runtime,
        room,
        accounts,
        &mut seats,
        &mut listeners,
        &mut gates,
        &mut workers,
    );
    hire_pokes(
        alloc, runtime, room, accounts, &mut seats, &mut pokes, &mut bells, &mut jobs,
    );
    let (workers, jobs) = work_all(crew, workers, jobs);
    dismiss_all(room, workers, &mut seats, &mut listeners);
    dismiss_pokes(room, jobs, &mut seats, &mut pokes);
    (seats, listeners, pokes)
}

// Serves listeners, of which there are so many, in a room that is opened for them.
fn serve_room<R: Wait + Sync, K: Keeper + Send, L: Listen + Send, P: PokeListen + Send, C: Crew>(
    alloc: Global,
    runtime: &R,
    crew: &mut C,
    accounts: &Accounts,
    desk: Desk<K>,
    listeners: Vec<L>,
    pokes: Vec<P>,
    count: u32,
) -> Returned<K, L, P>
where
    L::In: Send,
    L::Out: Send,
    P::Link: PokeLink + Send,
    requires count { (count ≡ vec_len listeners + vec_len pokes) × (0 < count) }
    requires settled { desk.doubt ≡ None }
    ensures { MatchResult result.served
        (λ done. ServesAtDesk K.Keeper L.Listen L.In.Source L.Out.Sink P.PokeListen P.Link.PokeLink accounts.now desk listeners.items pokes.items result.desk result.listeners.items result.pokes.items)
        (λ refused. (result.desk ≡ desk) × (result.listeners.items ≡ listeners.items) × (result.pokes.items ≡ pokes.items)) }
{
    let Ok(staff) = staff_of(alloc, crew, listeners.len() as u32, pokes.len() as u32) else {
        return Returned {
            served: Err(Memory),
            desk,
            listeners,
            pokes,
        };
    };
    let (room, seats) = match Room::open(alloc, desk, count) {
        Ok(opened) => opened,
        Err((_, desk)) => {
            dissolve(staff);
            return Returned {
                served: Err(Memory),
                desk,
                listeners,
                pokes,
            };
        }
    };
    let (seats, listeners, pokes) = serve_in(
        alloc, runtime, crew, accounts, &room, staff, seats, listeners, pokes,
    );
    Returned {
        served: Ok(()),
        desk: room.close(seats),
        listeners,
        pokes,
    }
}

/// Serves the connections and the links of listeners at one desk, each listener by a worker or a poke job of its own, and gives desk and
/// listeners back when none has one to come. Where memory is refused before the workers begin, all come back as they were.
pub fn serve_listeners<
    R: Wait + Sync,
    K: Keeper + Send,
    L: Listen + Send,
    P: PokeListen + Send,
    C: Crew,
>(
    alloc: Global,
    runtime: &R,
    crew: &mut C,
    accounts: &Accounts,
    desk: Desk<K>,
    listeners: Vec<L>,
    pokes: Vec<P>,
) -> Returned<K, L, P>
where
    L::In: Send,
    L::Out: Send,
    P::Link: PokeLink + Send,
    requires few { vec_len listeners < 2 ^ 32 }
    requires few_pokes { vec_len pokes < 2 ^ 32 }
    requires settled { desk.doubt ≡ None }
    ensures { MatchResult result.served
        (λ done. ServesAtDesk K.Keeper L.Listen L.In.Source L.Out.Sink P.PokeListen P.Link.PokeLink accounts.now desk listeners.items pokes.items result.desk result.listeners.items result.pokes.items)
        (λ refused. (result.desk ≡ desk) × (result.listeners.items ≡ listeners.items) × (result.pokes.items ≡ pokes.items)) }
{
    let workers = listeners.len() as u32;
    let jobs = pokes.len() as u32;
    match workers.checked_add(jobs) {
        Some(0) => Returned {
            served: Ok(()),
            desk,
            listeners,
            pokes,
        },
        Some(count) => serve_room(
            alloc, runtime, crew, accounts, desk, listeners, pokes, count,
        ),
        None => Returned {
            served: Err(Memory),
            desk,
            listeners,
            pokes,
        },
    }
}
