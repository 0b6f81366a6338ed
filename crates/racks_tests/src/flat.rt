// The flat rack.
use crate::reading::read_block;
use racks::{DriveState, FlatRack, Rack, ReadingRack};
use refusals::Refusal;
use std::test::Fail;

#[test]
fn sizes(rt: HostRuntime) -> Result<(), Fail> {
    let mut memory = [0; 3072];
    let rack = FlatRack::new(&mut memory, 3, 2);
    assert_eq!(rt; rack.drives(), 3);
    assert_eq!(rt; rack.blocks(), 2);
    let rack = FlatRack::new(&mut memory, 2, 2);
    assert_eq!(rt; rack.drives(), 0);
    assert_eq!(rt; rack.blocks(), 0);
    Ok(())
}

#[test]
fn limits(rt: HostRuntime) -> Result<(), Fail> {
    assert_eq!(rt; FlatRack::new(&mut [0; 16384], 32, 1).drives(), 32);
    assert_eq!(rt; FlatRack::new(&mut [0; 16896], 33, 1).drives(), 0);
    assert_eq!(rt; FlatRack::new(&mut [], 0, 65536).blocks(), 65536);
    assert_eq!(rt; FlatRack::new(&mut [], 0, 65537).blocks(), 0);
    Ok(())
}

#[test]
fn refusals_in_order(rt: HostRuntime) -> Result<(), Fail> {
    let mut memory = [0; 3072];
    let mut short = [9; 511];
    let mut long = [9; 513];
    let mut buf = [9; 512];
    let mut rack = FlatRack::new(&mut memory, 3, 2);
    assert_eq!(rt;
        rack.read(3, 2, &mut short),
        Err(Refusal::NoDrive { drive: 3 })
    );
    assert_eq!(rt;
        rack.read(2, 2, &mut short),
        Err(Refusal::NoBlock { block: 2 })
    );
    assert_eq!(rt; rack.read(2, 1, &mut short), Err(Refusal::BufferSize));
    assert_eq!(rt; rack.write(2, 1, &long), Err(Refusal::BufferSize));
    assert_eq!(rt; rack.fit(2), Err(Refusal::DriveLive { drive: 2 }));
    assert_eq!(rt; rack.fit(3), Err(Refusal::NoDrive { drive: 3 }));
    assert_eq!(rt; rack.pull(2), Ok(()));
    assert_eq!(rt; rack.read(2, 1, &mut long), Err(Refusal::BufferSize));
    assert_eq!(rt;
        rack.read(2, 1, &mut buf),
        Err(Refusal::NotLive { drive: 2, block: 1 })
    );
    assert_eq!(rt;
        rack.write(2, 0, &buf),
        Err(Refusal::NotLive { drive: 2, block: 0 })
    );
    assert_eq!(rt; buf[511], 9);
    assert_eq!(rt; rack.pull(3), Err(Refusal::NoDrive { drive: 3 }));
    assert_eq!(rt; rack.state(3), Err(Refusal::NoDrive { drive: 3 }));
    Ok(())
}

#[test]
fn read_after_write(rt: HostRuntime) -> Result<(), Fail> {
    let mut memory = [0; 3072];
    let mut rack = FlatRack::new(&mut memory, 3, 2);
    assert_eq!(rt; rack.write(1, 1, &[7; 512]), Ok(()));
    assert_eq!(rt; read_block(&mut rack, 1, 0), Ok([0; 512]));
    assert_eq!(rt; read_block(&mut rack, 1, 1), Ok([7; 512]));
    // Block 1 of drive 1 lies from byte 1536 to 2047.
    let memory = rack.into_memory();
    assert_eq!(rt; memory.get(1535).copied(), Some(0));
    assert_eq!(rt; memory.get(1536).copied(), Some(7));
    assert_eq!(rt; memory.get(2047).copied(), Some(7));
    assert_eq!(rt; memory.get(2048).copied(), Some(0));
    Ok(())
}

#[test]
fn pull_and_fit(rt: HostRuntime) -> Result<(), Fail> {
    let mut memory = [5; 3072];
    let mut rack = FlatRack::new(&mut memory, 3, 2);
    assert_eq!(rt; rack.state(1), Ok(DriveState::Live));
    assert_eq!(rt; rack.pull(1), Ok(()));
    assert_eq!(rt; rack.pull(1), Ok(()));
    assert_eq!(rt; rack.state(1), Ok(DriveState::Pulled));
    assert_eq!(rt; rack.state(0), Ok(DriveState::Live));
    assert_eq!(rt; rack.fit(1), Ok(()));
    assert_eq!(rt; rack.state(1), Ok(DriveState::Live));
    assert_eq!(rt; read_block(&mut rack, 1, 0), Ok([5; 512]));
    assert_eq!(rt; DriveState::Pulled.number(), 2);
    Ok(())
}

// Racks over memory that two callers lend, side by side in one array.
fn pulls_second(left: &mut [u8], right: &mut [u8]) -> bool {
    let mut racks = [FlatRack::new(left, 2, 1), FlatRack::new(right, 2, 1)];
    racks[1].pull(0).is_ok()
}

#[test]
fn racks_in_an_array(rt: HostRuntime) {
    let mut left = [1; 1024];
    let mut right = [2; 1024];
    assert!(rt; pulls_second(&mut left, &mut right));
}
