//! A law of the constants, the contract of a function that does nothing.
ghost use Rattle.lxr_layout.specs.Numbers.{HasCountWidth, HasCursors, HasGeometry, HasLargest};

/// The constants of blocks, lines, heaps, cursors and counts have these numbers. Elsewhere they are cited by their names alone.
pub fn constants_have_numbers()
    ensures geometry { HasGeometry }
    ensures largest { HasLargest }
    ensures cursors { HasCursors }
    ensures counts { HasCountWidth }
{}
