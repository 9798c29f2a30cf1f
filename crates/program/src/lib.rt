// The program's answer to a text, in lent bytes: the request is read, the near messages are listed, the lines are written.
#![tactic(auto)]

ghost use Rattle.std.specs.Prelude.{◌≡◌, ◌≤◌, length};
ghost use Rattle.near.specs.Results.{listed};
ghost use Rattle.text.specs.Answers.{reply};
ghost use Rattle.text.specs.Replies.{said};
ghost use Rattle.program.specs.Program.{Answered};

use near::Near;
use poly::Refused;
use poly::limits::{MESSAGES_MOST, WORKING_ROOM};
use text::Reply;

// What is printed of what the list job hands back: where it refuses, its number alone.
fn reply_to(back: Result<Near, Refused>, k: u8, messages: &[u8]) -> Reply<'_>
    ensures { let near = listed back in said result ≡ reply near.number near.updates near.weight near.count k messages.now }
{
    match back {
        Ok(near) => Reply {
            number: 0,
            updates: near.updates,
            weight: near.weight,
            count: near.count,
            k,
            messages,
        },
        Err(refused) => Reply {
            k,
            messages,
            ..Reply::refusal(u8::from(refused))
        },
    }
}

// The answer to a text, at the beginning of `out`; how long it is.
pub fn answer(text: &[u8], out: &mut [u8]) -> usize
    ensures { Answered text.now out.old out.new result × (result ≤ length out.old) }
{
    let Some(request) = text::read(text) else {
        return Reply::refusal(u8::from(Refused::Unreadable)).write(out);
    };
    let asked = rows::Request {
        p: request.field,
        points: &request.points,
        word: &request.word,
        k: request.k,
        m: request.m,
        l: request.l,
    };
    let mut room = [0u8; WORKING_ROOM];
    let mut messages = [0u8; MESSAGES_MOST];
    let listed = near::list(&asked, request.t, &mut room, &mut messages);
    reply_to(listed, request.k, &messages).write(out)
}
