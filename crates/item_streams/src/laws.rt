//! The laws, each as the contract of a function that does nothing. They hold for all rows that are short of bytes where
//! there are none.
ghost use Rattle.item_streams.specs.Laws.{EachHasReading, OneReading, StreamsCompose, PrefixHasPrefix, PrefixItemsEndInside, RestIsNotWhole, RestGrows, RestCompletes, NoneIsEmpty, FaultEndsStream, FrontIsRead, NothingIsRead, ItemAloneIsRead, PlacesAddUp, PlaceSaysNothing};
ghost use Rattle.item_streams.specs.Readers.{PushesRead, ReadsOn, ReadsAll, ReadsBroken};

/// Every list of bytes has a reading.
pub fn each_has_reading<V>()
    ensures { EachHasReading V }
{}

/// No list of bytes has another reading.
pub fn one_reading<V>()
    ensures { OneReading V }
{}

/// The reading of bytes and more is the items of the bytes, and then the reading of their rest and more.
pub fn streams_compose<V>()
    ensures { StreamsCompose V }
{}

/// The items of a prefix are a prefix of the items.
pub fn prefix_has_prefix<V>()
    ensures { PrefixHasPrefix V }
{}

/// Of a prefix are read just the items that end inside it.
pub fn prefix_items_end_inside<V>()
    ensures { PrefixItemsEndInside V }
{}

/// The rest is short or begins with a fault.
pub fn rest_is_not_whole<V>()
    ensures { RestIsNotWhole V }
{}

/// An item has at least one byte.
pub fn none_is_empty<V>()
    ensures { NoneIsEmpty V }
{}

/// While the rest and more is no whole item, only the rest grows.
pub fn rest_grows<V>()
    ensures { RestGrows V }
{}

/// Where the rest and more is just one whole item, it is the next one, and no byte is left.
pub fn rest_completes<V>()
    ensures { RestCompletes V }
{}

/// After a fault nothing more is read, however the bytes go on.
pub fn fault_ends_stream<V>()
    ensures { FaultEndsStream V }
{}

/// Where an item is whole at the front, it is read, and then the bytes after it.
pub fn front_is_read<V>()
    ensures { FrontIsRead V }
{}

/// Where no item is whole at the front, nothing is read.
pub fn nothing_is_read<V>()
    ensures { NothingIsRead V }
{}

/// Where the bytes are just one whole item, it is read, and no byte is left.
pub fn item_alone_is_read<V>()
    ensures { ItemAloneIsRead V }
{}

/// The place after the items and the bytes of the rest add up to the place after all bytes.
pub fn places_add_up<V>()
    ensures { PlacesAddUp V }
{}

/// What is read doesn't depend on the place at which the bytes begin.
pub fn place_says_nothing<V>()
    ensures { PlaceSaysNothing V }
{}

/// However a stream is cut, pushes give the items of its reading, each with its value, and the reader has the rest.
pub fn pushes_read<V>()
    ensures { PushesRead V }
{}

/// A loop that pushes what is left of some bytes has read the items that end at its place or before it.
pub fn reads_on<V>()
    ensures { ReadsOn V }
{}

/// At the end of the bytes they are read as the items so far, and a rest that is short.
pub fn reads_all<V>()
    ensures { ReadsAll V }
{}

/// At a fault the bytes are read as the items so far, and a rest that begins with the fault.
pub fn reads_broken<V>()
    ensures { ReadsBroken V }
{}
