//! Faults of parts of an image, which are placed from the part's own start.

ghost use Rattle.std.specs.Prelude.{◌≡◌, ℕ};
ghost use Rattle.byte_grammar.specs.declared.verdict.Verdict.{Verdict};
ghost use Rattle.update_record.specs.Decoding.{IsFault};
ghost use Rattle.state_image.specs.StateReading.{IsMoved, log_fault, IsNoRecord};

use llog_store::LlogFault;
use object_store::ImageFault;
use update_record::RecordFault;

/// The fault of a part that begins at a place. One whose place couldn't be told is answered as want of memory.
pub(crate) fn moved(place: usize, fault: ImageFault) -> ImageFault
    ensures { IsMoved place fault result }
{
    match fault {
        ImageFault::BadImage(by) => match place.checked_add(by) {
            Some(sum) => ImageFault::BadImage(sum),
            None => ImageFault::Memory,
        },
        ImageFault::Memory => ImageFault::Memory,
    }
}

/// The fault of a log, by its place in the log.
pub(crate) fn log_fault(fault: LlogFault) -> ImageFault
    ensures { result ≡ log_fault fault }
{
    match fault {
        LlogFault::BadLength(p) => ImageFault::BadImage(p),
        LlogFault::BadIndex(p) => ImageFault::BadImage(p),
        LlogFault::BadType(p) => ImageFault::BadImage(p),
        LlogFault::BadTail(p) => ImageFault::BadImage(p),
        LlogFault::BadPadding(p) => ImageFault::BadImage(p),
        LlogFault::BadBitmap(p) => ImageFault::BadImage(p),
        LlogFault::Truncated(p) => ImageFault::BadImage(p),
        LlogFault::Memory => ImageFault::Memory,
    }
}

/// The fault of bytes that are no record, by its place in them.
pub(crate) fn record_fault(fault: RecordFault) -> ImageFault
    ensures { (len : ℕ) (judged : Verdict) → IsFault fault len judged → IsNoRecord result len judged }
{
    match fault {
        RecordFault::BadMagic(p) => ImageFault::BadImage(p),
        RecordFault::BadType(p) => ImageFault::BadImage(p),
        RecordFault::BadCount(p) => ImageFault::BadImage(p),
        RecordFault::BadLength(p) => ImageFault::BadImage(p),
        RecordFault::BadPadding(p) => ImageFault::BadImage(p),
        RecordFault::BadValue(p) => ImageFault::BadImage(p),
        RecordFault::TooLong(p) => ImageFault::BadImage(p),
        RecordFault::Truncated(p) => ImageFault::BadImage(p),
        RecordFault::Memory => ImageFault::Memory,
    }
}
