// Calls on ids of a small common set, and the bodies and lines in which users send them.
use crate::draws::Draws;
use crate::texts::Part::{Number, Text};
use crate::texts::{append_parts, joined};
use rv_base::Memory;
use std::alloc::Global;

/// How many users there are.
pub const USERS: usize = 3;

/// The name of a user.
pub fn name(user: usize) -> &'static str {
    match user {
        0 => "ann",
        1 => "bob",
        _ => "cat",
    }
}

// A number below a bound.
fn drawn(draws: &mut Draws, bound: usize) -> u64 {
    draws.below(bound) as u64
}

fn add_list_call(
    alloc: Global,
    text: &mut String,
    draws: &mut Draws,
    owner: &str,
) -> Result<(), Memory> {
    let list = drawn(draws, 3);
    if draws.once_in(3) {
        let call = [
            Text("\"deleteList\",\"args\":\"l"),
            Number(list),
            Text("\""),
        ];
        return append_parts(alloc, text, &call);
    }
    let call = [
        Text("\"createList\",\"args\":{\"id\":\"l"),
        Number(list),
        Text("\",\"name\":\"Home\",\"ownerID\":\""),
        Text(owner),
        Text("\"}"),
    ];
    append_parts(alloc, text, &call)
}

// What a share lets its user do: nothing is said, or one of the two, or now and then what is neither.
fn role(draws: &mut Draws) -> &'static str {
    match draws.below(9) {
        0..=3 => "",
        4..=5 => ",\"role\":\"view\"",
        6..=7 => ",\"role\":\"edit\"",
        _ => ",\"role\":\"Edit\"",
    }
}

fn add_new_role(
    alloc: Global,
    text: &mut String,
    draws: &mut Draws,
    share: u64,
) -> Result<(), Memory> {
    let call = [
        Text("\"updateShare\",\"args\":{\"id\":\"s"),
        Number(share),
        Text("\""),
        Text(role(draws)),
        Text("}"),
    ];
    append_parts(alloc, text, &call)
}

fn add_share_call(alloc: Global, text: &mut String, draws: &mut Draws) -> Result<(), Memory> {
    let list = drawn(draws, 3);
    let share = drawn(draws, 4);
    if draws.once_in(3) {
        let call = [
            Text("\"deleteShare\",\"args\":\"s"),
            Number(share),
            Text("\""),
        ];
        return append_parts(alloc, text, &call);
    }
    if draws.once_in(3) {
        return add_new_role(alloc, text, draws, share);
    }
    let call = [
        Text("\"createShare\",\"args\":{\"id\":\"s"),
        Number(share),
        Text("\",\"listID\":\"l"),
        Number(list),
        Text("\",\"userID\":\""),
        Text(name(draws.below(USERS))),
        Text("\""),
        Text(role(draws)),
        Text("}"),
    ];
    append_parts(alloc, text, &call)
}

fn add_new_todo(alloc: Global, text: &mut String, draws: &mut Draws) -> Result<(), Memory> {
    let list = drawn(draws, 3);
    let todo = drawn(draws, 6);
    let call = [
        Text("\"createTodo\",\"args\":{\"id\":\"t"),
        Number(todo),
        Text("\",\"listID\":\"l"),
        Number(list),
        Text("\",\"text\":\"w"),
        Number(drawn(draws, 3)),
        Text("\",\"complete\":false}"),
    ];
    append_parts(alloc, text, &call)
}

// A field of a todo that is changed, and what it becomes.
fn add_change(alloc: Global, text: &mut String, draws: &mut Draws) -> Result<(), Memory> {
    let number = drawn(draws, 3);
    match draws.below(4) {
        0 => append_parts(alloc, text, &[Text("\"complete\":true")]),
        1 => append_parts(alloc, text, &[Text("\"sort\":"), Number(number)]),
        _ => append_parts(
            alloc,
            text,
            &[Text("\"text\":\"w"), Number(number), Text("\"")],
        ),
    }
}

fn add_todo_change(alloc: Global, text: &mut String, draws: &mut Draws) -> Result<(), Memory> {
    let todo = drawn(draws, 6);
    if draws.once_in(3) {
        let call = [
            Text("\"deleteTodo\",\"args\":\"t"),
            Number(todo),
            Text("\""),
        ];
        return append_parts(alloc, text, &call);
    }
    let call = [
        Text("\"updateTodo\",\"args\":{\"id\":\"t"),
        Number(todo),
        Text("\","),
    ];
    append_parts(alloc, text, &call)?;
    add_change(alloc, text, draws)?;
    append_parts(alloc, text, &[Text("}")])
}

// The lists that an extent is to name: none, one, two of three in any order, one twice, what is no list, or no extent.
fn lists(draws: &mut Draws) -> &'static str {
    match draws.below(10) {
        0..=2 => "null",
        3 => "[]",
        4 => "[\"l0\"]",
        5 => "[\"l1\"]",
        6 => "[\"l2\",\"l0\"]",
        7 => "[\"l1\",\"l2\"]",
        8 => "[\"l2\",\"l2\"]",
        _ => "[\"l0\",0]",
    }
}

fn add_extent_call(alloc: Global, text: &mut String, draws: &mut Draws) -> Result<(), Memory> {
    let call = [
        Text("\"setExtent\",\"args\":{\"lists\":"),
        Text(lists(draws)),
        Text("}"),
    ];
    append_parts(alloc, text, &call)
}

// Adds a name and the arguments of a call of a user's, mostly in a list of its own.
fn add_call(
    alloc: Global,
    text: &mut String,
    draws: &mut Draws,
    user: usize,
) -> Result<(), Memory> {
    let user = if draws.once_in(8) {
        draws.below(USERS)
    } else {
        user
    };
    match draws.below(28) {
        0..=6 => add_list_call(alloc, text, draws, name(user)),
        7..=13 => add_share_call(alloc, text, draws),
        14..=18 => add_new_todo(alloc, text, draws),
        19..=23 => add_todo_change(alloc, text, draws),
        24..=25 => add_extent_call(alloc, text, draws),
        26 => append_parts(alloc, text, &[Text("\"renameList\",\"args\":{}")]),
        _ => append_parts(alloc, text, &[Text("\"createTodo\",\"args\":{}")]),
    }
}

/// Adds a mutation of a client of a user's.
pub fn add_mutation(
    alloc: Global,
    text: &mut String,
    draws: &mut Draws,
    user: usize,
    client: &str,
    id: u64,
) -> Result<(), Memory> {
    let front = [
        Text("{\"clientID\":\""),
        Text(client),
        Text("\",\"id\":"),
        Number(id),
        Text(",\"name\":"),
    ];
    append_parts(alloc, text, &front)?;
    add_call(alloc, text, draws, user)?;
    append_parts(alloc, text, &[Text("}")])
}

/// The body of a push.
pub fn push<'x>(alloc: Global, group: &'x str, mutations: &'x str) -> Result<String, Memory> {
    joined(
        alloc,
        &[
            Text(
                "{\"pushVersion\":1,\"schemaVersion\":\"1\",\"profileID\":\"p\",\"clientGroupID\":\"",
            ),
            Text(group),
            Text("\",\"mutations\":["),
            Text(mutations),
            Text("]}"),
        ],
    )
}

/// The body of a pull.
pub fn pull<'x>(alloc: Global, group: &'x str, cookie: &'x str) -> Result<String, Memory> {
    joined(
        alloc,
        &[
            Text(
                "{\"pullVersion\":1,\"schemaVersion\":\"1\",\"profileID\":\"p\",\"clientGroupID\":\"",
            ),
            Text(group),
            Text("\",\"cookie\":"),
            Text(cookie),
            Text("}"),
        ],
    )
}

/// Adds the line in which a user sends a body.
pub fn add_line<'x>(
    alloc: Global,
    text: &mut String,
    user: &'x str,
    word: &'x str,
    body: &'x str,
) -> Result<(), Memory> {
    append_parts(
        alloc,
        text,
        &[
            Text("{\"user\":\""),
            Text(user),
            Text("\",\""),
            Text(word),
            Text("\":"),
            Text(body),
            Text("}\n"),
        ],
    )
}
