//! What the records of a disk say of every row of bytes.
ghost use Rattle.aw_store.specs.Laws.{ReadsRecords, ReadsRecordsOneWay};

/// Each row of bytes is unformatted, or holds one list of records that can be replayed, or is damaged
/// at one offset, and only one of these. So what a load answers says all of a disk that tells its
/// content, and what a crash leaves opens in one way.
pub fn each_disk_has_one_past(image: &[u8])
    ensures reads { ReadsRecords image.now }
    ensures one_way { ReadsRecordsOneWay image.now }
{
    let _ = image;
}
