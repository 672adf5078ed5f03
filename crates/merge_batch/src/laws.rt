//! What holds of every message. These functions do nothing: their contracts are the laws.
ghost use Rattle.merge_batch.specs.Laws.{FirstUploadItem, FirstDownloadItem, MakerIsCarried, ValidUpload, FittingDownload, EqualCounts};

/// The search for a broken rule finds the first item that breaks one.
pub fn search_laws()
    ensures upload { FirstUploadItem }
    ensures download { FirstDownloadItem }
{}

/// What a message that breaks no rule has.
pub fn validity_laws()
    ensures upload { ValidUpload }
    ensures download { FittingDownload }
    ensures counts { EqualCounts }
{}

/// A row's maker is the change that its identifier carries.
pub fn maker_law()
    ensures { MakerIsCarried }
{}
