//! That they are a course.
ghost use Rattle.part_courses.specs.Courses.{AreCoursesOfStore};

/// What a part of a store answers, one behind another, is a course from nothing: each command is answered by what `decide` says of the item that stands there.
pub fn store_courses()
    ensures { AreCoursesOfStore }
{}
