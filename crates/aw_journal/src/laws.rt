//! What the format says of every row of bytes.
ghost use Rattle.aw_journal.specs.Laws.{Reads, ReadsOneWay};

/// Each row of bytes is unformatted, or holds one list of payloads, or is cut short at one offset, and
/// only one of these. So what a load answers says all of a disk that tells its content.
pub fn each_disk_reads_one_way(image: &[u8])
    ensures reads { Reads image.now }
    ensures one_way { ReadsOneWay image.now }
{
    let _ = image;
}
