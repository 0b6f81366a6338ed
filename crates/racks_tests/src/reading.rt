// What the tests share.
use racks::ReadingRack;
use refusals::Refusal;

// The block that a read of it gives.
pub fn read_block<R: ReadingRack>(
    rack: &mut R,
    drive: u8,
    block: u32,
) -> Result<[u8; 512], Refusal> {
    // bytes that no rack of the tests holds
    let mut buf = [0xa5; 512];
    rack.read(drive, block, &mut buf)?;
    Ok(buf)
}
