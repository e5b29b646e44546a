//! Runs of posts and takes of a mailbox.
use ax_base::NoMemory;
use ax_context::{Contexts, Id};
use ax_mailbox::{Mail, Mailbox};
use ax_state::Answer;
use std::alloc::Global;
use std::test::Fail;

// Two contexts.
fn two_ids(alloc: Global) -> Result<(Id, Id), NoMemory> {
    let mut contexts = Contexts::with_limit(alloc, 2)?;
    let first = contexts.make((), 0);
    let second = contexts.make((), 0);
    Ok((first, second))
}

// Posts a mail where there is room, and tells whether there was.
fn post(mailbox: &mut Mailbox, mail: Mail) -> bool {
    if mailbox.len() == mailbox.room() {
        return false;
    }
    mailbox.post(mail);
    true
}

#[test]
fn first_in_first_out(rt: HostRuntime) -> Result<(), Fail> {
    let (first, second) = two_ids(rt.alloc())?;
    let mut mailbox = Mailbox::with_room(rt.alloc(), 2)?;
    assert_eq!(rt; mailbox.room(), 2);
    mailbox.post(Mail::Start { id: first });
    mailbox.post(Mail::Fire { id: second });
    assert_eq!(rt; mailbox.len(), 2);
    assert!(rt; !post(&mut mailbox, Mail::Start { id: second }));
    assert_eq!(rt; mailbox.take(), Some(Mail::Start { id: first }));
    assert_eq!(rt; mailbox.take(), Some(Mail::Fire { id: second }));
    assert_eq!(rt; mailbox.take(), None);
    let mut none = Mailbox::with_room(rt.alloc(), 0)?;
    assert!(rt; !post(&mut none, Mail::Start { id: first }));
    assert_eq!(rt; none.take(), None);
    Ok(())
}

// The mail of a reply with this number.
fn reply(id: Id, number: i64) -> Mail {
    Mail::Reply {
        id,
        slot: 3,
        answer: Answer::Found { number },
    }
}

// Posts and takes in turn go round the room many times. The mails have the numbers from 0 on.
#[test]
fn goes_round(rt: HostRuntime) -> Result<(), Fail> {
    let (id, _) = two_ids(rt.alloc())?;
    let mut mailbox = Mailbox::with_room(rt.alloc(), 5)?;
    let mut posted: i64 = 0;
    let mut taken: i64 = 0;
    let mut draw: u32 = 1;
    for _step in 0..1000 {
        draw = draw.wrapping_mul(1103515245).wrapping_add(12345);
        if (draw >> 16) % 2 == 0 {
            if post(&mut mailbox, reply(id, posted)) {
                posted = posted.wrapping_add(1);
            } else {
                assert_eq!(rt; posted.wrapping_sub(taken), 5);
            }
        } else if let Some(mail) = mailbox.take() {
            assert_eq!(rt; mail, reply(id, taken));
            taken = taken.wrapping_add(1);
        } else {
            assert_eq!(rt; posted, taken);
        }
        assert_eq!(rt; i64::from(mailbox.len()), posted.wrapping_sub(taken));
    }
    assert!(rt; taken > 200);
    Ok(())
}
