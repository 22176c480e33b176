//! Laws of courses: what they come to, and when their diary is known. A function here has no code:
//! its contract is the law.

ghost use Rattle.smil_laws.specs.Courses.{EndedIsDiary, ReachedIsPast, ReachesBack, ReachesFurther, ReachesOverQuiet, TooLongIsFull};

/// A resolution that has ended within the bound has given the diary of its course.
pub fn ended_is_diary()
    ensures { EndedIsDiary }
{}

/// A course that comes to more entries than a diary may have has no diary.
pub fn too_long_is_full()
    ensures { TooLongIsFull }
{}

/// What a course comes to, a course with a longer log and a later last moment comes to as well.
pub fn reaches_further()
    ensures { ReachesFurther }
{}

/// A course that has heard its log comes to a later moment with the same diary, where nothing comes
/// before it.
pub fn reaches_over_quiet()
    ensures { ReachesOverQuiet }
{}

/// What a course comes to, it came to at each earlier moment with the entries up to that moment.
pub fn reaches_back()
    ensures { ReachesBack }
{}

/// No entry of what a course comes to is later than its moment, and none names a log entry that was
/// not heard.
pub fn reached_is_past()
    ensures { ReachedIsPast }
{}
