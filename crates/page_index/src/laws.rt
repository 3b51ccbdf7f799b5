//! Laws over documents, each the contract of a function without a body.
ghost use Rattle.page_index.specs.Laws.{BytesAreADocumentOrHaveAFault, CutDocumentsAreTruncated, DocumentsHaveNoFault, DocumentsHaveOneReading, EachPageEnds, FirstFaultsAreOne, PagesAreApart, PagesFollowOneAnother};

/// All bytes are a document or have a first fault, at any resolution: a document has no fault and
/// one reading, and a file has at most one first fault.
pub fn documents()
    ensures either { BytesAreADocumentOrHaveAFault }
    ensures no_fault { DocumentsHaveNoFault }
    ensures one_reading { DocumentsHaveOneReading }
    ensures one_fault { FirstFaultsAreOne }
{}

/// A document that ends with exactly four bytes 223 is truncated wherever it is cut: the first
/// fault of each proper prefix is `Truncated`, at the length of that prefix.
pub fn cut_documents()
    ensures { CutDocumentsAreTruncated }
{}

/// Each page that a document begins has its end, the pages follow one another, and no command is on
/// two pages.
pub fn pages()
    ensures ended { EachPageEnds }
    ensures in_order { PagesFollowOneAnother }
    ensures apart { PagesAreApart }
{}
