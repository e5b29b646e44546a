//! Epochs and their final actions, beside a plain list.
use crate::draws::next_draw;
use ax_time::epoch_laws::{open_law, sizes_law};
use ax_time::{Epochs, Marker};
use std::test::Fail;

// One piece of work more or fewer in an epoch, where that is allowed. Tells whether it was.
fn change(epochs: &mut Epochs, epoch: u64, enters: bool) -> bool {
    open_law();
    sizes_law(epochs);
    if epochs.current().wrapping_sub(epoch) > epochs.pending() {
        return false;
    }
    let count = epochs.count(epoch);
    if enters && count < 1 << 63 {
        epochs.enter(epoch);
        return true;
    }
    if !enters && count > 0 {
        epochs.leave(epoch);
        return true;
    }
    false
}

#[test]
fn an_action_waits_for_its_epoch(rt: HostRuntime) -> Result<(), Fail> {
    let mark = Marker::Mark { time: 3 };
    let mut epochs = Epochs::new(rt.alloc());
    assert!(rt; change(&mut epochs, 0, true));
    epochs.close(mark)?;
    assert_eq!(rt; epochs.take_finished(), None);
    assert!(rt; change(&mut epochs, 0, false));
    assert_eq!(rt; epochs.take_finished(), Some(mark));
    assert_eq!(rt; epochs.take_finished(), None);
    // Of two closed epochs the later is finished before.
    let barrier = Marker::Barrier { id: -8 };
    assert!(rt; change(&mut epochs, 1, true));
    epochs.close(barrier)?;
    epochs.close(mark)?;
    assert_eq!(rt; epochs.take_finished(), None);
    assert_eq!(rt; epochs.current(), 3);
    assert_eq!(rt; epochs.pending(), 2);
    assert_eq!(rt; epochs.count(1), 1);
    assert!(rt; change(&mut epochs, 1, false));
    assert_eq!(rt; epochs.take_finished(), Some(barrier));
    assert_eq!(rt; epochs.take_finished(), Some(mark));
    assert_eq!(rt; epochs.pending(), 0);
    Ok(())
}

// The work of each epoch that was ever begun, and how many of their actions were taken.
#[derive(Drop)]
struct Plain {
    counts: Vec<u64>,
    taken: u64,
}

impl Plain {
    // The work of an epoch that is open.
    fn open(&mut self, epoch: u64) -> Option<&mut u64> {
        if epoch < self.taken {
            return None;
        }
        self.counts.get_mut(epoch as usize)
    }

    // One piece of work more or fewer, where that is allowed.
    fn change(&mut self, epoch: u64, enters: bool) -> bool {
        let Some(count) = self.open(epoch) else {
            return false;
        };
        if !enters && *count == 0 {
            return false;
        }
        *count = if enters {
            count.wrapping_add(1)
        } else {
            count.wrapping_sub(1)
        };
        true
    }

    // The action that is taken now.
    fn take(&mut self) -> Option<Marker> {
        let oldest = self.taken;
        if oldest.wrapping_add(1) >= self.counts.len() as u64 || self.open(oldest) != Some(&mut 0) {
            return None;
        }
        self.taken = oldest.wrapping_add(1);
        Some(marker_of(oldest))
    }
}

// The action of an even epoch is a watermark, and that of an odd one a snapshot.
fn marker_of(epoch: u64) -> Marker {
    let number = i64::try_from(epoch).unwrap_or(-1);
    if epoch % 2 == 0 {
        Marker::Mark { time: number }
    } else {
        Marker::Barrier { id: number }
    }
}

// Each step takes one of the epochs from the last that was taken on.
#[test]
fn follows_a_plain_list(rt: HostRuntime) -> Result<(), Fail> {
    let mut epochs = Epochs::new(rt.alloc());
    let mut plain = Plain {
        counts: Vec::new(rt.alloc()),
        taken: 0,
    };
    plain.counts.push(0)?;
    let mut draw: u64 = 7;
    for _step in 0..5000 {
        draw = next_draw(draw);
        let epoch = plain.taken.wrapping_sub(1).wrapping_add((draw >> 33) % 6);
        match draw >> 61 {
            0..=4 => {
                let enters = draw >> 61 == 0;
                let changed = change(&mut epochs, epoch, enters);
                assert_eq!(rt; changed, plain.change(epoch, enters));
            }
            5 => {
                epochs.close(marker_of(epochs.current()))?;
                plain.counts.push(0)?;
            }
            _ => assert_eq!(rt; epochs.take_finished(), plain.take()),
        }
        assert_eq!(rt; epochs.current().wrapping_add(1), plain.counts.len() as u64);
        assert_eq!(rt;
            epochs.current().wrapping_sub(epochs.pending()),
            plain.taken
        );
        assert_eq!(rt;
            epochs.count(epoch),
            plain.open(epoch).copied().unwrap_or(0)
        );
    }
    assert!(rt; plain.taken > 100);
    Ok(())
}
