//! The laws over the definitions, each the contract of a function with nothing to do.
ghost use Rattle.shape_json.specs.Laws.{BodiesTell, SizesAdd, LogIsTaken, LogIsOf, StopsHaveCause, PageStays, PageIsFront, DropNext, TookAdds, LogIsPlain, TakenIsPlain, PagesAreAsked, GoneNamesReady};

/// Bodies of plain entries with one text have the same entries and the same control. So a body that
/// was written of plain entries is read back as they are.
pub fn bodies_tell()
    ensures { BodiesTell }
{}

/// The text of entries is as long as their texts together, and a comma for each entry but one.
pub fn sizes_add()
    ensures { SizesAdd }
{}

/// The log of a shape's history is the log that a server keeps, where the commits that came do what
/// those of the history do.
pub fn log_is_taken()
    ensures { LogIsTaken }
{}

/// Where besides the snapshot is honest and shows the last commit taken before it, the log of a
/// shape's history is the log of its definition and its snapshot.
pub fn log_is_of()
    ensures { LogIsOf }
{}

/// A commit has a cause to stop a shape exactly where some change of it stops the shape.
pub fn stops_have_cause()
    ensures { StopsHaveCause }
{}

/// A page that ends a closed chunk is the same for every later log.
pub fn page_stays()
    ensures { PageStays }
{}

/// A page is the front of what is past the offset, and all of it where it is up to date.
pub fn page_is_front()
    ensures { PageIsFront }
{}

/// With one event more a shape is dropped by an earlier event, or else by this one.
pub fn drop_next()
    ensures { DropNext }
{}

/// A commit that comes to a ready shape and does not drop it adds nothing to its log where it is
/// passed over, and else its entries.
pub fn took_adds()
    ensures { TookAdds }
{}

/// The entries of a log are plain, where no two selected columns have one name.
pub fn log_is_plain()
    ensures defined { LogIsPlain }
    ensures taken { TakenIsPlain }
{}

/// An answer's page is of a ready handle of the request's identity, after the offset that was asked
/// for. Where a handle is gone, the one named in its place is ready under that identity.
pub fn answers_fit()
    ensures paged { PagesAreAsked }
    ensures gone { GoneNamesReady }
{}
