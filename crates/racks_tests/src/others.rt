// The joined rack, the image rack and the racks to test with.
use crate::reading::read_block;
use racks::{DriveState, FlatRack, ImageRack, JoinedRack, Rack, ReadingRack};
use refusals::Refusal;
use std::test::Fail;
use test_racks::{DeadRack, FailingRack};

#[test]
fn joined_numbers(rt: HostRuntime) -> Result<(), Fail> {
    let mut left = [1; 2048];
    let mut right = [2; 3072];
    let first = FlatRack::new(&mut left, 2, 2);
    let second = FlatRack::new(&mut right, 3, 2);
    let mut rack = JoinedRack::new(first, second);
    assert_eq!(rt; rack.drives(), 5);
    assert_eq!(rt; rack.blocks(), 2);
    assert_eq!(rt; read_block(&mut rack, 1, 1), Ok([1; 512]));
    assert_eq!(rt; read_block(&mut rack, 2, 1), Ok([2; 512]));
    assert_eq!(rt; rack.pull(3), Ok(()));
    assert_eq!(rt;
        read_block(&mut rack, 3, 1),
        Err(Refusal::NotLive { drive: 3, block: 1 })
    );
    assert_eq!(rt; rack.fit(4), Err(Refusal::DriveLive { drive: 4 }));
    assert_eq!(rt;
        read_block(&mut rack, 5, 0),
        Err(Refusal::NoDrive { drive: 5 })
    );
    let (_, second) = rack.into_racks();
    assert_eq!(rt; second.state(1), Ok(DriveState::Pulled));
    Ok(())
}

#[test]
fn joined_sizes(rt: HostRuntime) -> Result<(), Fail> {
    let mut left = [1; 2048];
    let mut right = [2; 3072];
    let first = FlatRack::new(&mut left, 2, 2);
    let second = FlatRack::new(&mut right, 2, 3);
    let rack = JoinedRack::new(first, second);
    assert_eq!(rt; rack.drives(), 0);
    assert_eq!(rt; rack.blocks(), 0);
    assert_eq!(rt;
        JoinedRack::new(DeadRack::new(16, 4), DeadRack::new(16, 4)).drives(),
        32
    );
    assert_eq!(rt;
        JoinedRack::new(DeadRack::new(16, 4), DeadRack::new(17, 4)).drives(),
        0
    );
    Ok(())
}

#[test]
fn images(rt: HostRuntime) -> Result<(), Fail> {
    let bytes = [3; 2048];
    let mut buf = [0; 512];
    let mut rack = ImageRack::new(&bytes, 4, 1, 0x8000_0004);
    assert_eq!(rt; rack.state(2), Ok(DriveState::Pulled));
    assert_eq!(rt; rack.state(3), Ok(DriveState::Live));
    assert_eq!(rt;
        rack.read(2, 0, &mut buf),
        Err(Refusal::NotLive { drive: 2, block: 0 })
    );
    assert_eq!(rt; buf[0], 0);
    assert_eq!(rt; rack.read(3, 0, &mut buf), Ok(()));
    assert_eq!(rt; buf[511], 3);
    assert_eq!(rt; ImageRack::new(&bytes, 4, 2, 0).blocks(), 0);
    Ok(())
}

#[test]
fn failures(rt: HostRuntime) -> Result<(), Fail> {
    let mut memory = [4; 3072];
    let inner = FlatRack::new(&mut memory, 3, 2);
    let mut rack = FailingRack::new(inner, &[1, 3]);
    assert_eq!(rt; read_block(&mut rack, 0, 0), Ok([4; 512]));
    assert_eq!(rt;
        read_block(&mut rack, 1, 0),
        Err(Refusal::NotLive { drive: 1, block: 0 })
    );
    assert_eq!(rt; rack.state(1), Ok(DriveState::Failed));
    assert_eq!(rt;
        read_block(&mut rack, 1, 1),
        Err(Refusal::NotLive { drive: 1, block: 1 })
    );
    assert_eq!(rt; rack.write(2, 0, &[4; 512]), Ok(()));
    assert_eq!(rt; rack.fit(1), Err(Refusal::NotLive { drive: 1, block: 0 }));
    assert_eq!(rt; rack.fit(1), Ok(()));
    assert_eq!(rt; read_block(&mut rack, 1, 1), Ok([4; 512]));
    assert_eq!(rt; rack.touches(), 6);
    Ok(())
}

#[test]
fn dead_from_the_start(rt: HostRuntime) -> Result<(), Fail> {
    let mut rack = DeadRack::new(3, 2);
    assert_eq!(rt; rack.state(0), Ok(DriveState::Failed));
    assert_eq!(rt;
        read_block(&mut rack, 0, 1),
        Err(Refusal::NotLive { drive: 0, block: 1 })
    );
    assert_eq!(rt; rack.pull(0), Ok(()));
    assert_eq!(rt; rack.fit(0), Err(Refusal::NotLive { drive: 0, block: 0 }));
    assert_eq!(rt; rack.state(0), Ok(DriveState::Failed));
    Ok(())
}

// Racks that are made of racks, of several kinds.
#[test]
fn nested(rt: HostRuntime) -> Result<(), Fail> {
    let mut memory = [4; 1024];
    let inner = FailingRack::new(FlatRack::new(&mut memory, 2, 1), &[1]);
    let mut rack = JoinedRack::new(
        JoinedRack::new(DeadRack::new(1, 1), inner),
        DeadRack::new(1, 1),
    );
    assert_eq!(rt; rack.drives(), 4);
    assert_eq!(rt; read_block(&mut rack, 2, 0), Ok([4; 512]));
    assert_eq!(rt;
        read_block(&mut rack, 2, 0),
        Err(Refusal::NotLive { drive: 2, block: 0 })
    );
    assert_eq!(rt;
        read_block(&mut rack, 3, 0),
        Err(Refusal::NotLive { drive: 3, block: 0 })
    );
    assert_eq!(rt; rack.fit(2), Ok(()));
    assert_eq!(rt; rack.state(2), Ok(DriveState::Live));
    Ok(())
}

// Flat racks within joined ones within others: a rack that borrows memory stands anywhere in a nest.
#[test]
fn nested_flat(rt: HostRuntime) -> Result<(), Fail> {
    let mut left = [1; 1024];
    let mut right = [2; 1024];
    let mut memory = [3; 1024];
    let first = FlatRack::new(&mut left, 2, 1);
    let second = FlatRack::new(&mut right, 2, 1);
    let inner = FailingRack::new(JoinedRack::new(first, second), &[1]);
    let mut rack = JoinedRack::new(FlatRack::new(&mut memory, 2, 1), inner);
    assert_eq!(rt; rack.drives(), 6);
    assert_eq!(rt; read_block(&mut rack, 3, 0), Ok([1; 512]));
    assert_eq!(rt; rack.pull(1), Ok(()));
    assert_eq!(rt;
        read_block(&mut rack, 4, 0),
        Err(Refusal::NotLive { drive: 4, block: 0 })
    );
    Ok(())
}
