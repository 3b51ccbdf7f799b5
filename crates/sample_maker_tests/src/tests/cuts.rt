//! The document of the sample, cut at each byte.
use page_index::{DocFault, Index, IndexStop};
use sample_maker::sample;
use std::alloc::Global;
use std::test::Fail;

// The first fault of the first bytes of the sample's document, if they have one.
fn fault(alloc: Global, length: usize) -> Result<Option<DocFault>, Fail> {
    let made = sample(alloc, 1)?;
    let bytes = made.document.get(..length).unwrap_or(&made.document);
    match Index::read(alloc, bytes, 300) {
        Ok(_) => Ok(None),
        Err(IndexStop::Fault(fault)) => Ok(Some(fault)),
        Err(stop) => Err(stop.into()),
    }
}

// It has 240 bytes, of which the last five are 223, as `ONE_PAGE` of the samples shows. So the
// first 239 are a document that ends with exactly four of them, and each proper prefix of these is
// truncated at its length.
#[test]
fn a_document_that_is_cut_is_truncated(rt: HostRuntime) -> Result<(), Fail> {
    for at in 0..240 {
        let wanted = if at < 239 {
            Some(DocFault::Truncated { at })
        } else {
            None
        };
        assert_eq!(rt; fault(rt.alloc(), at)?, wanted);
    }
    Ok(())
}
