//! Laws of the tables and of the image of an object graph, each the contract of a function that does nothing.
ghost use Rattle.lxr_image.specs.ImageLaws.{ImageIsRead, ImageStandsWhole, NewKeepsImage, OutsideKeepsImage, PutKeepsImage, RegisterKeepsPlaces, StoreKeepsImage};
ghost use Rattle.lxr_image.specs.Spaces.{EntriesAreWithin, NoneStartsPast};

/// No count is above `STUCK`, and a reuse counter has 32 bits.
pub fn entries_are_within()
    ensures { EntriesAreWithin }
{}

/// No object begins past the heap.
pub fn none_starts_past()
    ensures { NoneStartsPast }
{}

/// A heap word outside all objects may be written.
pub fn outside_keeps_image()
    ensures { OutsideKeepsImage }
{}

/// Storing a place into a field stores the reference in the graph.
pub fn store_keeps_image()
    ensures { StoreKeepsImage }
{}

/// Putting a value into a data word puts it into the graph.
pub fn put_keeps_image()
    ensures { PutKeepsImage }
{}

/// Writing a new object on free room makes it in the graph.
pub fn new_keeps_image()
    ensures { NewKeepsImage }
{}

/// A register that gets a place holds the name that stands there.
pub fn register_keeps_places()
    ensures { RegisterKeepsPlaces }
{}

/// What is read at an object's start bit is what the graph says of the object.
pub fn image_is_read()
    ensures { ImageIsRead }
{}

/// Each start bit stands at the header of an object that lies whole in one block.
pub fn image_stands_whole()
    ensures { ImageStandsWhole }
{}
