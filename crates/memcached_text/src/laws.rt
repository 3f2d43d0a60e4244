//! What the grammar says of bytes.
ghost use Rattle.memcached_text.specs.Answer.{IsOneAnswer};
ghost use Rattle.memcached_text.specs.Item.{IsOneItem};
ghost use Rattle.memcached_text.specs.Meaning.{SplitsAtSpaces, IsOneMeaning};
ghost use Rattle.memcached_text.specs.Next.{EndsBinary};
ghost use Rattle.memcached_text.specs.Place.{KeepsPlace};
ghost use Rattle.memcached_text.specs.Quiet.{IsQuiet};
ghost use Rattle.memcached_text.specs.Replies.{IsOneReply};
ghost use Rattle.memcached_text.specs.Spelling.{ReadsBack, IsOneCommand, Stays, Waits};
ghost use Rattle.memcached_text.specs.Stream.{GoesOn};

/// The text of a command is read as that command, whatever follows, so bytes begin with the text of at most one. What
/// bytes begin with stays so whatever follows, and bytes that wait for more are a beginning of something.
pub fn one_command()
    ensures read { ReadsBack }
    ensures one { IsOneCommand }
    ensures stays { Stays }
    ensures waits { Waits }
    ensures goes_on { GoesOn }
    ensures binary { EndsBinary }
{}

/// A line means what its words mean, and spaces part its words.
pub fn one_meaning()
    ensures words { SplitsAtSpaces }
    ensures same { IsOneMeaning }
{}

/// The bytes of a value are never taken for a command where its line tells their length, also where the line is refused.
pub fn one_place()
    ensures { KeepsPlace }
{}

/// A command and a refusal are quiet just where the last word of their line asks for it.
pub fn quiet_as_asked()
    ensures { IsQuiet }
{}

/// What is answered to a command is read in one way, and so are the values in the answer to a get.
pub fn one_answer()
    ensures answer { IsOneAnswer }
    ensures values { IsOneReply }
{}

/// What is stored of an item is read as it.
pub fn one_item()
    ensures { IsOneItem }
{}
